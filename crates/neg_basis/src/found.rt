ghost use Rattle.std.specs.Prelude.{◌≡◌, []};
ghost use Rattle.group_table.specs.Prime.{prime_value};

use crate::origin::Origin;
use fp_rows::Matrix;
use group_table::Prime;
use std::alloc::Global;

/// Vectors with different heads, and beside them their heads and their origins.
#[derive(Drop)]
pub struct Found {
    pub vectors: Matrix,
    pub heads: Vec<usize>,
    pub origins: Vec<Origin>,
}

/// No vectors.
pub fn no_vectors(alloc: Global, p: Prime, width: usize) -> Found
    ensures field { result.vectors.p ≡ prime_value p }
    ensures width { result.vectors.width ≡ width }
    ensures vectors { result.vectors.rows ≡ [] }
    ensures heads { result.heads.items ≡ [] }
    ensures origins { result.origins.items ≡ [] }
{
    Found {
        vectors: Matrix::new(alloc, p, width),
        heads: Vec::new(alloc),
        origins: Vec::new(alloc),
    }
}
