//! The next list of coefficients, the next list of positions, and the next combination.

ghost use Rattle.std.specs.Prelude.{◌≡◌, true, false, ◌+◌, ◌<◌, ◌^◌, length, IfOk, OnOk};
ghost use Rattle.std.specs.List.{AllByRecursion as Each};
ghost use Rattle.param_test.specs.Odometers.{AreDigits, AreTop, AreOnes, IsTurned, run, IsLast, IsShifted};
ghost use Rattle.param_test.specs.Odometers.{IsSparse, IsSuccessor, IsEnd};

use group_table::Memory;

// The next coefficients, or all 1 behind the last.
fn next_coefficients(p: u8, c: &mut [u8]) -> bool
    requires prime { 1 < p }
    requires digits { AreDigits p c.old }
    ensures turned { result ≡ true → IsTurned p c.old c.new }
    ensures top { result ≡ false → AreTop p c.old }
    ensures ones { result ≡ false → AreOnes c.new }
{
    if c.is_empty() {
        return false;
    }
    if next_coefficients(p, &mut c[1..]) {
        return true;
    }
    let x = c[0];
    if x < p - 1 {
        c[0] = x + 1;
        true
    } else {
        c[0] = 1;
        false
    }
}

// Writes from, from + 1 and so on.
fn fill_run(a: &mut [usize], from: usize)
    requires { from + length a.old < 2 ^ 64 }
    ensures { a.new ≡ run from (length a.old) }
{
    for (i, x) in a.iter_mut().enumerate() {
        *x = from + i;
    }
}

// The next positions, or the same behind the last.
fn next_positions(n: usize, a: &mut [usize]) -> bool
    requires below { Each (λ x. x < n) a.old }
    ensures shifted { result ≡ true → IsShifted n a.old a.new }
    ensures last { result ≡ false → IsLast n a.old }
    ensures same { result ≡ false → a.new ≡ a.old }
{
    if a.is_empty() {
        return false;
    }
    if next_positions(n, &mut a[1..]) {
        return true;
    }
    let x = a[0];
    if a.len() < n - x {
        fill_run(a, x + 1);
        true
    } else {
        false
    }
}

// `next_coefficients` of a vector.
fn turn(p: u8, c: &mut Vec<u8>) -> bool
    requires prime { 1 < p }
    requires digits { AreDigits p c.old.items }
    ensures turned { result ≡ true → IsTurned p c.old.items c.new.items }
    ensures top { result ≡ false → AreTop p c.old.items }
    ensures ones { result ≡ false → AreOnes c.new.items }
    ensures same_length { length c.new.items ≡ length c.old.items }
{
    next_coefficients(p, c)
}

// `next_positions` of a vector.
fn shift(n: usize, a: &mut Vec<usize>) -> bool
    requires { Each (λ x. x < n) a.old.items }
    ensures shifted { result ≡ true → IsShifted n a.old.items a.new.items }
    ensures last { result ≡ false → IsLast n a.old.items }
    ensures same { result ≡ false → a.new.items ≡ a.old.items }
{
    next_positions(n, a)
}

// The first positions, one more than there were.
fn lengthen(a: &mut Vec<usize>) -> Result<(), Memory>
    ensures { OnOk result (a.new.items ≡ run 0 (length a.old.items + 1)) }
{
    a.push(0)?;
    fill_run(a, 0);
    Ok(())
}

/// Moves on to the next combination; false at the last.
pub(crate) fn advance(p: u8, n: usize, a: &mut Vec<usize>, c: &mut Vec<u8>) -> Result<bool, Memory>
    requires prime { 1 < p }
    requires sparse { IsSparse p n a.old.items c.old.items }
    ensures successor { IfOk result (λ b. b ≡ true
        → IsSuccessor p n a.old.items c.old.items a.new.items c.new.items) }
    ensures last { IfOk result (λ b. b ≡ false → IsEnd p n a.old.items c.old.items) }
{
    if turn(p, c) {
        return Ok(true);
    }
    if shift(n, a) {
        return Ok(true);
    }
    if a.len() >= n {
        return Ok(false);
    }
    lengthen(a)?;
    c.push(1)?;
    Ok(true)
}
