ghost use Rattle.std.specs.Prelude.{◌≡◌, ◌+◌, ◌^◌, ◌<◌, ◌≤◌, length};
ghost use Rattle.group_table.specs.Prime.{prime_value};
ghost use Rattle.fp_rows.specs.Refs.{entries_of, modulus_of};

use crate::given::{row_of, shows};
use fp_rows::{Row, RowRef, ShortRow};
use group_table::{Memory, Prime};
use std::alloc::Global;
use std::process::Abort;
use std::test::Fail;

// Bytes below m, which is not 0.
fn pattern(m: u8) -> [u8; 264]
    requires { 0 < m }
{
    let mut bytes = [0; 264];
    let mut x = 1u8;
    for y in bytes.iter_mut() {
        *y = (x >> 2) % m;
        x = x.wrapping_mul(5).wrapping_add(3);
    }
    bytes
}

// The first place of a number that is not 0, and the count where each is 0.
fn first_of(entries: &[u8]) -> usize {
    for (i, x) in entries.iter().enumerate() {
        if *x != 0 {
            return i;
        }
    }
    entries.len()
}

// Whether the part, added to zeros from place `from` on, is read there, and each number before it is 0.
fn adds_at(
    alloc: Global,
    p: Prime,
    from: usize,
    part: RowRef<'_>,
    expected: &[u8],
) -> Result<bool, Memory>
    requires prime { modulus_of part ≡ prime_value p }
    requires small { from + length (entries_of part) < 2 ^ 32 }
{
    let mut sum = Row::zero(alloc, p, from + part.len())?;
    sum.add_part(from, 1, part);
    Ok(sum.view().part(0, from).is_zero() && shows(sum.view().part(from, part.len()), expected))
}

// Whether the part is read in a short row of zeros to which it is added.
fn adds_to_short(p: Prime, part: RowRef<'_>, expected: &[u8]) -> bool
    requires prime { modulus_of part ≡ prime_value p }
    requires short { length (entries_of part) ≤ 256 }
{
    let mut short = ShortRow::zero(p, part.len());
    short.add(1, part);
    shows(short.view(), expected)
}

// Whether `len` numbers of the row, from place `from` on, are read, copied and added as they stand.
fn adds_part(
    rt: &impl Abort,
    alloc: Global,
    p: Prime,
    row: &Row,
    from: usize,
    expected: &[u8],
) -> Result<bool, Memory>
    requires prime { row.now.p ≡ prime_value p }
{
    assert!(rt; from <= 64 && expected.len() <= 200 && from + expected.len() <= row.len());
    let part = row.view().part(from, expected.len());
    let added = adds_at(alloc, p, from, part, expected)?;
    Ok(
        added
            && shows(part, expected)
            && adds_to_short(p, part, expected)
            && part.next_place(0) == first_of(expected),
    )
}

fn adds_parts(rt: &impl Abort, alloc: Global, p: Prime, from: usize) -> Result<bool, Memory> {
    assert!(rt; from <= 64);
    let bytes = pattern(p.value());
    let row = row_of(rt, alloc, p, &bytes)?;
    for len in 0..201 {
        if !adds_part(rt, alloc, p, &row, from, &bytes[from..from + len])? {
            return Ok(false);
        }
    }
    Ok(true)
}

#[test]
fn adds_parts_of_all_lengths(rt: HostRuntime) -> Result<(), Fail> {
    for from in [0, 1, 63, 64] {
        assert!(rt; adds_parts(&rt, rt.alloc(), Prime::P2, from)?);
        assert!(rt; adds_parts(&rt, rt.alloc(), Prime::P7, from)?);
    }
    Ok(())
}

#[test]
fn adds_to_parts_and_short_rows(rt: HostRuntime) -> Result<(), Fail> {
    let mut row = row_of(&rt, rt.alloc(), Prime::P3, &[1, 2, 0, 1])?;
    let part = row_of(&rt, rt.alloc(), Prime::P3, &[2, 1])?;
    row.add_part(1, 2, part.view());
    assert!(rt; shows(row.view(), &[1, 0, 2, 1]));
    assert_eq!(rt;
        (row.view().next_place(1), row.view().next_place(4)),
        (2, 4)
    );
    let mut short = ShortRow::zero(Prime::P3, 2);
    short.add(2, part.view());
    short.add(2, part.view());
    assert!(rt; shows(short.view(), &[2, 1]));
    Ok(())
}
