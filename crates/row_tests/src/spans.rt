ghost use Rattle.std.specs.Prelude.{◌≡◌, length, IfOk};
ghost use Rattle.group_table.specs.Prime.{prime_value};

use crate::given::{holds, lists, matrix_of, row_of, shows};
use fp_rows::{
    Echelon, FromRows, Row, echelon, greedy, kernel, kernel_and_preimages, preimages, solve,
};
use group_table::{Memory, Prime};
use std::alloc::Global;
use std::process::Abort;
use std::test::Fail;

// Whether the vector is in the span.
fn contains(rt: &impl Abort, alloc: Global, e: &Echelon, entries: &[u8]) -> Result<bool, Memory> {
    let row = row_of(rt, alloc, e.prime(), entries)?;
    assert_eq!(rt; row.len(), e.width());
    Ok(e.contains(row.view()))
}

// What is left of the vector.
fn reduced(rt: &impl Abort, alloc: Global, e: &Echelon, entries: &[u8]) -> Result<Row, Memory> {
    let mut row = row_of(rt, alloc, e.prime(), entries)?;
    assert_eq!(rt; row.len(), e.width());
    e.reduce(&mut row);
    Ok(row)
}

// The reduced echelon list of the rows, of three numbers each.
fn span_of(rt: &impl Abort, alloc: Global, p: Prime, rows: &[u8]) -> Result<Echelon, Memory>
    ensures prime { IfOk result (λ e. e.p ≡ prime_value p) }
    ensures width { IfOk result (λ e. e.width ≡ 3) }
{
    let m = matrix_of(rt, alloc, p, 3, rows)?;
    echelon(alloc, &m)
}

// Generators, their reduced echelon list of two rows, a vector outside its span, what it reduces to, and a
// member of the span.
#[derive(Clone, Copy)]
struct Case<'a> {
    p: Prime,
    generators: &'a [u8],
    first: &'a [u8],
    second: &'a [u8],
    outside: &'a [u8],
    rest: &'a [u8],
    member: &'a [u8],
}

// The list has the rows of the case, and tells their pivots.
fn lists_rows(rt: &impl Abort, e: &Echelon, case: Case<'_>) {
    assert_eq!(rt; (e.rows(), e.width(), e.prime()), (2, 3, case.p));
    assert!(rt; shows(e.row(0), case.first) && shows(e.row(1), case.second));
    assert_eq!(rt; (e.pivot(0), e.row(1).get(e.pivot(1))), (0, 1));
    assert!(rt; e.is_pivot(0) && !e.is_pivot(3));
}

// The list tells the member from the vector outside, and reduces that one.
fn tells_members(
    rt: &impl Abort,
    alloc: Global,
    e: &Echelon,
    case: Case<'_>,
) -> Result<(), Memory> {
    assert!(rt; contains(rt, alloc, e, case.member)?);
    assert!(rt; !contains(rt, alloc, e, case.outside)?);
    assert!(rt; shows(reduced(rt, alloc, e, case.outside)?.view(), case.rest));
    Ok(())
}

fn reduces_as(rt: &impl Abort, alloc: Global, case: Case<'_>) -> Result<(), Memory> {
    let e = span_of(rt, alloc, case.p, case.generators)?;
    lists_rows(rt, &e, case);
    tells_members(rt, alloc, &e, case)
}

#[test]
fn reduces_over_two_and_three_elements(rt: HostRuntime) -> Result<(), Fail> {
    let two = Case {
        p: Prime::P2,
        generators: &[1, 1, 0, 0, 1, 1, 1, 0, 1],
        first: &[1, 0, 1],
        second: &[0, 1, 1],
        outside: &[1, 1, 1],
        rest: &[0, 0, 1],
        member: &[1, 1, 0],
    };
    let three = Case {
        p: Prime::P3,
        generators: &[2, 0, 1, 1, 1, 0, 0, 2, 2],
        first: &[1, 0, 2],
        second: &[0, 1, 1],
        outside: &[2, 1, 0],
        rest: &[0, 0, 1],
        member: &[2, 1, 2],
    };
    reduces_as(&rt, rt.alloc(), two)?;
    reduces_as(&rt, rt.alloc(), three)?;
    Ok(())
}

#[test]
fn reduces_over_five_and_seven_elements(rt: HostRuntime) -> Result<(), Fail> {
    let five = Case {
        p: Prime::P5,
        generators: &[0, 0, 2, 2, 1, 4, 4, 2, 1],
        first: &[1, 3, 0],
        second: &[0, 0, 1],
        outside: &[4, 4, 3],
        rest: &[0, 2, 0],
        member: &[3, 4, 2],
    };
    let seven = Case {
        p: Prime::P7,
        generators: &[3, 5, 1, 0, 0, 2, 3, 5, 0],
        first: &[1, 4, 0],
        second: &[0, 0, 1],
        outside: &[2, 3, 6],
        rest: &[0, 2, 0],
        member: &[5, 6, 3],
    };
    reduces_as(&rt, rt.alloc(), five)?;
    reduces_as(&rt, rt.alloc(), seven)?;
    Ok(())
}

#[test]
fn solves_over_three_elements(rt: HostRuntime) -> Result<(), Fail> {
    let m = matrix_of(&rt, rt.alloc(), Prime::P3, 2, &[1, 2, 2, 1])?;
    let e = echelon(rt.alloc(), &m)?;
    let k = kernel(rt.alloc(), &m)?;
    let u = preimages(rt.alloc(), &m, &e, &k)?;
    assert!(rt; lists(&e, &[&[1, 2]]));
    assert!(rt; lists(&k, &[&[1, 1]]));
    assert!(rt; holds(&u, &[&[0, 2]]));
    Ok(())
}

#[test]
fn finds_kernel_and_preimages_at_once(rt: HostRuntime) -> Result<(), Fail> {
    let m = matrix_of(&rt, rt.alloc(), Prime::P3, 2, &[1, 2, 2, 1, 0, 1])?;
    let e = echelon(rt.alloc(), &m)?;
    let solved = kernel_and_preimages(rt.alloc(), &m, &e)?;
    assert!(rt; lists(&e, &[&[1, 0], &[0, 1]]));
    assert!(rt; lists(&solved.kernel, &[&[1, 1, 0]]));
    assert!(rt; holds(&solved.preimages, &[&[0, 2, 1], &[0, 0, 1]]));
    Ok(())
}

#[test]
fn solves_with_the_span(rt: HostRuntime) -> Result<(), Fail> {
    let m = matrix_of(&rt, rt.alloc(), Prime::P3, 2, &[1, 2, 2, 1, 0, 1])?;
    let solution = solve(rt.alloc(), &m)?;
    assert!(rt; lists(&solution.image, &[&[1, 0], &[0, 1]]));
    assert!(rt; lists(&solution.kernel, &[&[1, 1, 0]]));
    assert!(rt; holds(&solution.preimages, &[&[0, 2, 1], &[0, 0, 1]]));
    Ok(())
}

#[test]
fn takes_rows_outside_the_span(rt: HostRuntime) -> Result<(), Fail> {
    let s = echelon(
        rt.alloc(),
        &matrix_of(&rt, rt.alloc(), Prime::P2, 2, &[1, 0, 0, 1])?,
    )?;
    let t = echelon(
        rt.alloc(),
        &matrix_of(&rt, rt.alloc(), Prime::P2, 2, &[1, 1])?,
    )?;
    assert!(rt; s.rows() < 4294967296);
    let positions = greedy(rt.alloc(), &s, &t)?;
    assert_eq!(rt; positions.len(), 1);
    assert_eq!(rt; positions.get(0), 0);
    Ok(())
}

/// The first bad row of a matrix, and none where its rows are a reduced row echelon list.
fn bad_row(
    rt: &impl Abort,
    alloc: Global,
    p: Prime,
    width: usize,
    entries: &[u8],
) -> Result<Option<usize>, Memory> {
    match Echelon::from_rows(alloc, matrix_of(rt, alloc, p, width, entries)?) {
        Ok(_) => Ok(None),
        Err(FromRows::Not { row, matrix: _ }) => Ok(Some(row)),
        Err(FromRows::Memory { matrix: _ }) => Err(Memory),
    }
}

// The first bad row is that one.
fn is_bad(
    rt: &impl Abort,
    alloc: Global,
    p: Prime,
    width: usize,
    entries: &[u8],
    row: usize,
) -> Result<(), Memory> {
    assert_eq!(rt;
        bad_row(rt, alloc, p, width, entries)?,
        Some(row),
        "{entries:?}"
    );
    Ok(())
}

#[test]
fn names_the_first_bad_row(rt: HostRuntime) -> Result<(), Fail> {
    let alloc = rt.alloc();
    is_bad(&rt, alloc, Prime::P2, 2, &[1, 1, 0, 1], 0)?;
    is_bad(&rt, alloc, Prime::P2, 2, &[1, 0, 0, 0], 1)?;
    is_bad(&rt, alloc, Prime::P3, 2, &[1, 0, 0, 2], 1)?;
    is_bad(&rt, alloc, Prime::P3, 2, &[0, 1, 1, 0], 1)?;
    is_bad(&rt, alloc, Prime::P3, 3, &[1, 0, 0, 0, 1, 1, 0, 0, 1], 1)?;
    let two = bad_row(&rt, alloc, Prime::P2, 3, &[1, 0, 1, 0, 1, 1])?;
    let three = bad_row(&rt, alloc, Prime::P3, 3, &[1, 0, 2, 0, 1, 1])?;
    assert_eq!(rt; (two, three), (None, None));
    Ok(())
}
