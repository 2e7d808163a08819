//! The tables of elementary abelian groups.

ghost use Rattle.std.specs.Prelude.{◌≡◌, ◌<◌, ◌≤◌, ◌^◌, IfOk};
ghost use Rattle.group_table.specs.Prime.{prime_value};
ghost use Rattle.elementary_subgroups.specs.OwnGroups.{digit_sum, elementary_group};

use group_table::Prime;
use std::alloc::{AllocError, Global};

/// The table of the elementary abelian group of a rank, by rows.
pub(crate) fn elementary_entries(
    alloc: Global,
    prime: Prime,
    rank: u32,
) -> Result<Vec<u16>, AllocError>
    requires { prime_value prime ^ rank ≤ 256 }
    ensures { IfOk result (λ v. v.items ≡ (elementary_group (prime_value prime) rank).entries) }
{
    let p = u32::from(prime.value());
    let size = p.pow(rank);
    let mut entries = Vec::new(alloc);
    for place in 0..size * size {
        entries.push(digit_sum(p, rank, place / size, place % size) as u16)?;
    }
    Ok(entries)
}

// The number whose digits to the base p are the sums, modulo p, of the first digits of a and b.
fn digit_sum(p: u32, rank: u32, a: u32, b: u32) -> u32
    requires base { (0 < p) × (p ≤ 7) }
    requires small { p ^ rank ≤ 256 }
    ensures sum { result ≡ digit_sum p rank a b }
    ensures below { result < p ^ rank }
{
    if rank == 0 {
        return 0;
    }
    digit_sum(p, rank - 1, a / p, b / p) * p + (a % p + b % p) % p
}
