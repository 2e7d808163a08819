/// Where a vector comes from: it is a multiple of what its origin names, reduced by the vectors before it.
#[derive(Clone, Copy)]
pub enum Origin {
    /// Row r of the generators, counted from 0.
    Chosen(u32),
    /// The image under a map, counted from 0, of the vector at the earlier position `of`.
    Step { map: u32, of: u32 },
}
