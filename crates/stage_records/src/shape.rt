use group_table::Prime;

/// What a record has to fit: the prime and the order of the group, the degree, and the number of rows of the
/// list before.
#[derive(Clone, Copy, Debug)]
pub struct Shape {
    /// The prime.
    pub p: Prime,
    /// The order of the group.
    pub order: u16,
    /// The degree of the record.
    pub degree: u16,
    /// The dimension of the kernel of the degree before.
    pub previous: u32,
}
