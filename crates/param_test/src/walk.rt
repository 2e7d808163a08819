//! The walk through the tuples of candidates, by total degree and then place by place.

ghost use Rattle.std.specs.Prelude.{◌≡◌, ℕ, true, false, ◌+◌, ◌-◌, ◌*◌, ◌<◌, ◌≤◌, [], ◌∷◌, ◌++◌, length};
ghost use Rattle.std.specs.Prelude.{slice_index, All, IfOk, MatchOption};
ghost use Rattle.param_test.specs.Firsts.{IsFirstPassing, NonePasses};
ghost use Rattle.param_test.specs.Tables.{degrees_of};
ghost use Rattle.param_test.specs.Parameters.{Passes};
ghost use Rattle.param_test.specs.Tuples.{IsTuple, IsBefore, AreByDegree, total};
ghost use Rattle.param_test.specs.Walks.{least, Fits, IsAt};

use crate::table::ParamTable;
use group_table::Memory;
use std::alloc::Global;

// The total degree of a tuple.
fn total(degrees: &[u32], tuple: &[usize]) -> u64
    requires few { length tuple.now ≤ 4294967295 }
    requires small { (i : ℕ) → slice_index degrees.now i ≤ 24 }
    requires inside { All (λ i. i < length degrees.now) tuple.now }
    ensures value { result ≡ total degrees.now tuple.now }
    ensures small { result ≤ 24 * length tuple.now }
{
    let mut sum = 0;
    for i in tuple {
        sum += degrees[*i] as u64;
    }
    sum
}

// The degree of the k candidates from one on.
fn least(degrees: &[u32], k: usize, from: usize) -> u64
    requires few { k ≤ 4294967295 }
    requires small { (i : ℕ) → slice_index degrees.now i ≤ 24 }
    requires room { from + k ≤ length degrees.now }
    ensures value { result ≡ least degrees.now k from }
    ensures small { result ≤ 24 * k }
{
    let mut sum = 0;
    for i in from..from + k {
        sum += degrees[i] as u64;
    }
    sum
}

// Whether a tuple of r candidates of at most this degree may go on from pre at next.
fn fits(degrees: &[u32], r: usize, sum: u64, pre: &[usize], next: usize) -> bool
    requires few { r ≤ 4294967295 }
    requires small { (i : ℕ) → slice_index degrees.now i ≤ 24 }
    requires inside { All (λ i. i < length degrees.now) pre.now }
    requires room { length pre.now < r }
    ensures yes { result ≡ true → Fits degrees.now r sum pre.now next }
    ensures no { result ≡ false → Fits degrees.now r sum pre.now next → ⊥ }
{
    let k = r - pre.len();
    if k > degrees.len() || next > degrees.len() - k {
        return false;
    }
    let degree = total(degrees, pre) + least(degrees, k, next);
    degree <= sum
}

// Tries the tuple of pre and next, and leaves it in pre where it passes.
fn try_tuple(
    alloc: Global,
    table: &ParamTable,
    pre: &mut Vec<usize>,
    next: usize,
) -> Result<bool, Memory>
    requires inside { All (λ k. k < length table.now.candidates) pre.old.items }
    requires next { next < length table.now.candidates }
    ensures yes { IfOk result (λ b. b ≡ true → Passes table.now (pre.old.items ++ next ∷ [])) }
    ensures no { IfOk result (λ b. b ≡ false → Passes table.now (pre.old.items ++ next ∷ []) → ⊥) }
    ensures passed { IfOk result (λ b. b ≡ true → pre.new.items ≡ pre.old.items ++ next ∷ []) }
    ensures failed { IfOk result (λ b. b ≡ false → pre.new.items ≡ pre.old.items) }
{
    pre.push(next)?;
    let found = table.passes(alloc, pre)?;
    if !found {
        pre.pop();
    }
    Ok(found)
}

/// Tries the tuples of r candidates of one total degree, at most so many as are left.
pub(crate) fn search_degree(
    alloc: Global,
    table: &ParamTable,
    degrees: &[u32],
    r: usize,
    sum: u64,
    left: &mut usize,
) -> Result<Option<Vec<usize>>, Memory>
    requires few { r ≤ 4294967295 }
    requires positive { 0 < r }
    requires degrees { degrees.now ≡ degrees_of table.now.candidates }
    requires small { (i : ℕ) → slice_index degrees.now i ≤ 24 }
    requires by_degree { AreByDegree degrees.now }
    requires at { IsAt degrees.now r (Passes table.now) sum (0 ∷ []) left.old }
    ensures found { IfOk result (λ o. MatchOption o (Unit {0}) (λ t. IsFirstPassing
        (IsTuple (length degrees.now) r) (IsBefore degrees.now) 5000 (Passes table.now) t.items)) }
    ensures ended { IfOk result (λ o. MatchOption o (left.new ≡ 0 → NonePasses
        (IsTuple (length degrees.now) r) (IsBefore degrees.now) 5000 (Passes table.now)) (λ t. Unit {0})) }
    ensures on { IfOk result (λ o. MatchOption o (0 < left.new
        → IsAt degrees.now r (Passes table.now) (sum + 1) (0 ∷ []) left.new) (λ t. Unit {0})) }
{
    let mut pre = Vec::new(alloc);
    let mut next = 0;
    while *left > 0 {
        if !fits(degrees, r, sum, &pre, next) {
            match pre.pop() {
                None => return Ok(None),
                Some(last) => next = last + 1,
            }
        } else if pre.len() + 1 < r {
            pre.push(next)?;
            next += 1;
        } else if total(degrees, &pre) + degrees[next] as u64 != sum {
            next += 1;
        } else {
            if try_tuple(alloc, table, &mut pre, next)? {
                return Ok(Some(pre));
            }
            *left -= 1;
            next += 1;
        }
    }
    Ok(None)
}
