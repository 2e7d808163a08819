//! The places of a free module: layer by layer, in a layer block by block, in a block by position.

ghost use Rattle.std.specs.Prelude.{◌≡◌, ◌+◌, ◌*◌, ◌^◌, ◌<◌, ◌≤◌, length, slice_index, IfOk};
ghost use Rattle.radical_layers.specs.Placing.{size_of, place_of};
ghost use Rattle.group_algebra.specs.Places.{start_of, span_of, start_at};

use group_table::Memory;
use std::alloc::Global;
use std::marker::Model;

/// The sizes of the layers, and for each member where its layer starts and how large it is.
#[derive(Drop)]
pub(crate) struct Places {
    sizes: Vec<usize>,
    starts: Vec<usize>,
    spans: Vec<usize>,
}

impl Model for Places {
    ghost use Rattle.std.specs.Prelude.{ℕ, List};
    ghost use Rattle.radical_layers.specs.Placing.{size_of};
    ghost use Rattle.group_algebra.specs.Places.{AreSpots};

    ghost Value = { List ℕ };

    ghost view = { λ a. a.sizes.items };

    ghost invariant = { λ a. AreSpots a.sizes.items (size_of a.sizes.items) a.starts.items a.spans.items };
}

/// Where the layer of a member starts, and its size.
#[derive(Clone, Copy)]
struct Spot {
    start: usize,
    span: usize,
}

fn spot_of(sizes: &[usize], member: usize) -> Spot
    requires inside { member < size_of sizes.now }
    requires few { size_of sizes.now ≤ 256 }
    ensures start { result.start ≡ start_of sizes.now member }
    ensures span { result.span ≡ span_of sizes.now member }
{
    let mut start = 0;
    for s in sizes {
        if member < start + *s {
            return Spot { start, span: *s };
        }
        start += *s;
    }
    unreachable!()
}

/// A block and a member.
#[derive(Clone, Copy)]
pub(crate) struct Location {
    pub(crate) block: usize,
    pub(crate) member: usize,
}

impl Places {
    /// The places by layers of these sizes, `count` in sum.
    pub(crate) fn new(alloc: Global, sizes: Vec<usize>, count: usize) -> Result<Places, Memory>
        requires sum { count ≡ size_of sizes.items }
        requires few { count ≤ 256 }
        ensures { IfOk result (λ a. a ≡ sizes.items) }
    {
        let mut starts = Vec::new(alloc);
        let mut spans = Vec::new(alloc);
        for k in 0..count {
            let spot = spot_of(&sizes, k);
            starts.push(spot.start)?;
            spans.push(spot.span)?;
        }
        Ok(Places {
            sizes,
            starts,
            spans,
        })
    }

    /// How many layers there are.
    pub(crate) fn layers(&self) -> usize
        ensures { result ≡ length self.now }
    {
        self.sizes.len()
    }

    /// The size of layer i.
    #[tactic(auto, using(crate::proofs::LayerPlaces::start_within))]
    pub(crate) fn size(&self, i: usize) -> usize
        requires { i < length self.now }
        ensures value { result ≡ slice_index self.now i }
        ensures within { start_at self.now i + result ≤ size_of self.now }
    {
        self.sizes[i]
    }

    /// The place of the first member of layer i in a block, of `rank` blocks, where `start` members are
    /// before the layer.
    pub(crate) fn layer_place(&self, rank: usize, block: usize, i: usize, start: usize) -> usize
        requires block { block < rank }
        requires layer { i < length self.now }
        requires start { start ≡ start_at self.now i }
        requires small { size_of self.now * rank < 2 ^ 64 }
        ensures value { result ≡ rank * start_at self.now i + block * slice_index self.now i }
        ensures within { result + slice_index self.now i ≤ size_of self.now * rank }
    {
        rank * start + block * self.sizes[i]
    }

    /// The place of a member in a block, of `rank` blocks.
    pub(crate) fn place(&self, rank: usize, block: usize, member: usize) -> usize
        requires block { block < rank }
        requires member { member < size_of self.now }
        requires small { size_of self.now * rank < 2 ^ 64 }
        ensures value { result ≡ place_of self.now rank block member }
        ensures inside { result < size_of self.now * rank }
    {
        let start = self.starts[member];
        rank * start + block * self.spans[member] + (member - start)
    }

    /// The block, of `rank` blocks, and the member at a place.
    pub(crate) fn location(&self, rank: usize, place: usize) -> Location
        requires inside { place < size_of self.now * rank }
        requires small { size_of self.now * rank < 2 ^ 64 }
        requires few { size_of self.now ≤ 256 }
        ensures block { result.block < rank }
        ensures member { result.member < size_of self.now }
        ensures place { place_of self.now rank result.block result.member ≡ place }
    {
        let mut start = 0;
        for layer in 0..self.layers() {
            let size = self.size(layer);
            if place < rank * (start + size) {
                let inside = place - rank * start;
                return Location {
                    block: inside / size,
                    member: start + inside % size,
                };
            }
            start += size;
        }
        unreachable!()
    }
}
