//! Answers worked out by hand.

ghost use Rattle.std.specs.Prelude.{◌≡◌, ◌+◌, ◌≤◌, [], ◌∷◌, All, length, IfOk, OnOk};
ghost use Rattle.group_table.specs.Prime.{prime_value};
ghost use Rattle.gc_poly.specs.Polynomials.{IsOverGenerators};

use fp_rows::{Positions, RowRef};
use gc_poly::{Gens, Poly, Polys, monomials};
use group_table::{Memory, Prime};
use limits::GREATEST_DEGREE;
use param_test::{Finite, ParamTable, bound, combinations, finite_on, search};
use std::alloc::Global;
use std::process::Abort;
use std::test::Fail;

// Generators of one degree.
fn alike(alloc: Global, p: Prime, degree: u32, count: u32) -> Result<Gens, Memory>
    requires low { 1 ≤ degree }
    requires high { degree ≤ GREATEST_DEGREE }
{
    let mut gens = Gens::new(alloc, p);
    for _i in 0..count {
        gens.push(degree)?;
    }
    Ok(gens)
}

// The generators for C2 x C2, of degrees 1 and 1.
fn four(alloc: Global) -> Result<Gens, Memory>
    ensures { IfOk result (λ gens. gens ≡ record { prime = 2; degrees = 1 ∷ 1 ∷ [] }) }
{
    let mut gens = Gens::new(alloc, Prime::P2);
    gens.push(1)?;
    gens.push(1)?;
    Ok(gens)
}

// The generators for C3 x C3, of degrees 1, 1, 2 and 2.
fn nine(alloc: Global) -> Result<Gens, Memory>
    ensures { IfOk result (λ gens. gens ≡ record { prime = 3; degrees = 1 ∷ 1 ∷ 2 ∷ 2 ∷ [] }) }
{
    let mut gens = Gens::new(alloc, Prime::P3);
    gens.push(1)?;
    gens.push(1)?;
    gens.push(2)?;
    gens.push(2)?;
    Ok(gens)
}

// The sum of the monomials at these places of the descending list of a degree.
fn sum(alloc: Global, gens: &Gens, degree: u32, places: &[usize]) -> Result<Poly, Memory>
    requires { degree ≤ GREATEST_DEGREE }
    ensures over { IfOk result (IsOverGenerators gens.now) }
    ensures degree { IfOk result (λ f. f.degree ≡ degree) }
{
    let _p = gens.prime();
    let list = monomials(alloc, gens, degree)?;
    let mut f = Poly::zero(alloc, degree);
    for i in places {
        if *i < list.len() {
            f.add_term(gens, 1, list.get(*i))?;
        }
    }
    Ok(f)
}

// Two such sums by their degrees and places, and the answer for them.
type Case<'a> = (u32, &'a [usize], u32, &'a [usize], Finite);

// For two variables over two elements: x² and y³, which leave x y²; x² + x y + y² and x² y + x y²; and x²
// alone, which leaves every power of y.
const OVER_FOUR: [Case<'static>; 3] = [
    (2, &[0], 3, &[3], Finite::Yes(4)),
    (2, &[0, 1, 2], 3, &[1, 2], Finite::Yes(4)),
    (2, &[0], 2, &[], Finite::No(3)),
];

// For two variables over three elements: y_1² and y_2²; y_1, and y_2 with a term that is dropped; and y_1,
// and a polynomial of which nothing is left.
const OVER_NINE: [Case<'static>; 3] = [
    (4, &[2], 4, &[4], Finite::Yes(3)),
    (2, &[1], 2, &[0, 2], Finite::Yes(1)),
    (2, &[1], 2, &[0], Finite::No(1)),
];

// The two sums.
fn pair(alloc: Global, gens: &Gens, case: &Case<'_>) -> Result<Polys, Memory>
    requires first { case.now.0 ≤ GREATEST_DEGREE }
    requires second { case.now.2 ≤ GREATEST_DEGREE }
    ensures over { IfOk result (All (IsOverGenerators gens.now)) }
    ensures low { IfOk result (All (λ f. f.degree ≤ GREATEST_DEGREE)) }
{
    let mut fs = Polys::new(alloc);
    fs.push(sum(alloc, gens, case.0, case.1)?)?;
    fs.push(sum(alloc, gens, case.2, case.3)?)?;
    Ok(fs)
}

// The answer is the one of the case.
fn answers(rt: &impl Abort, alloc: Global, gens: &Gens, case: &Case<'_>) -> Result<(), Fail> {
    assert!(rt; case.0 <= GREATEST_DEGREE && case.2 <= GREATEST_DEGREE);
    let fs = pair(alloc, gens, case)?;
    assert_eq!(rt; finite_on(alloc, gens, &fs)?, case.4);
    Ok(())
}

// The same for so many generators of one degree.
fn answers_alike(
    rt: &impl Abort,
    alloc: Global,
    p: Prime,
    degree: u32,
    count: u32,
    case: &Case<'_>,
) -> Result<(), Fail> {
    assert!(rt; 1 <= degree && degree <= GREATEST_DEGREE);
    let gens = alike(alloc, p, degree, count)?;
    answers(rt, alloc, &gens, case)
}

// Adds a candidate with these sums as its restrictions to two subgroups with the same generators.
fn add(
    alloc: Global,
    table: &mut ParamTable,
    gens: &Gens,
    degree: u32,
    first: &[usize],
    second: &[usize],
) -> Result<(), Memory>
    requires subgroups { table.old.subgroups ≡ gens.now ∷ gens.now ∷ [] }
    requires few { length table.old.candidates ≤ 9 }
    requires high { degree ≤ GREATEST_DEGREE }
    requires order { All (λ c. c.degree ≤ degree) table.old.candidates }
    ensures subgroups { OnOk result (table.new.subgroups ≡ table.old.subgroups) }
    ensures count { OnOk result (length table.new.candidates ≡ length table.old.candidates + 1) }
    ensures order { OnOk result (All (λ c. c.degree ≤ degree) table.new.candidates) }
{
    let mut images = Polys::new(alloc);
    images.push(sum(alloc, gens, degree, first)?)?;
    images.push(sum(alloc, gens, degree, second)?)?;
    table.add_candidate(degree, images)
}

// Whether a tuple has these places.
fn is_at(tuple: &Positions, places: &[u32]) -> bool {
    if tuple.len() != places.len() {
        return false;
    }
    for i in 0..places.len() {
        if tuple.get(i) != places[i] {
            return false;
        }
    }
    true
}

// The search finds the tuple with these places.
fn finds(
    rt: &impl Abort,
    alloc: Global,
    table: &ParamTable,
    r: usize,
    places: &[u32],
) -> Result<(), Fail> {
    match search(alloc, table, r)? {
        Some(tuple) => assert!(rt; is_at(&tuple, places)),
        None => assert!(rt; false, "none"),
    }
    Ok(())
}

// The search finds none.
fn finds_none(rt: &impl Abort, alloc: Global, table: &ParamTable, r: usize) -> Result<(), Fail> {
    let found = search(alloc, table, r)?;
    assert!(rt; found.is_none());
    Ok(())
}

// Whether a row has these entries.
fn shows(r: RowRef<'_>, entries: &[u8]) -> bool {
    if r.len() != entries.len() {
        return false;
    }
    for i in 0..entries.len() {
        if r.get(i) != entries[i] {
            return false;
        }
    }
    true
}

// Combination i of so many monomials is this one, and there are so many.
const COMBINATIONS: [(Prime, usize, usize, usize, &[u8]); 6] = [
    (Prime::P3, 2, 4, 0, &[1, 0]),
    (Prime::P3, 2, 4, 1, &[0, 1]),
    (Prime::P3, 2, 4, 2, &[1, 1]),
    (Prime::P3, 2, 4, 3, &[1, 2]),
    (Prime::P2, 7, 63, 62, &[0, 0, 0, 0, 1, 1, 1]),
    (Prime::P7, 3, 57, 0, &[1, 0, 0]),
];

fn lists(
    rt: &impl Abort,
    alloc: Global,
    case: &(Prime, usize, usize, usize, &[u8]),
) -> Result<(), Fail> {
    let list = combinations(alloc, case.0, case.1)?;
    assert_eq!(rt; list.len(), case.2);
    assert!(rt; case.3 < list.len());
    assert!(rt; shows(list.get(case.3), case.4));
    Ok(())
}

#[test]
fn bounds_of_degrees(rt: HostRuntime) {
    assert_eq!(rt; bound(&[]), 1);
    assert_eq!(rt; bound(&[4]), 6);
    assert_eq!(rt; bound(&[1, 2]), 2);
    assert_eq!(rt; bound(&[2, 2]), 4);
}

#[test]
fn finite_for_two(rt: HostRuntime) -> Result<(), Fail> {
    let gens = four(rt.alloc())?;
    for case in &OVER_FOUR {
        answers(&rt, rt.alloc(), &gens, case)?;
    }
    Ok(())
}

#[test]
fn finite_for_one_and_for_many(rt: HostRuntime) -> Result<(), Fail> {
    answers_alike(
        &rt,
        rt.alloc(),
        Prime::P2,
        1,
        1,
        &(4, &[0], 1, &[], Finite::Yes(4)),
    )?;
    answers_alike(
        &rt,
        rt.alloc(),
        Prime::P2,
        1,
        5,
        &(9, &[0], 1, &[], Finite::TooMany(1820)),
    )?;
    answers_alike(
        &rt,
        rt.alloc(),
        Prime::P3,
        2,
        6,
        &(18, &[0], 2, &[], Finite::TooMany(2002)),
    )
}

#[test]
fn infinite_for_none(rt: HostRuntime) -> Result<(), Fail> {
    let gens = alike(rt.alloc(), Prime::P2, 1, 1)?;
    let none = Polys::new(rt.alloc());
    assert_eq!(rt; finite_on(rt.alloc(), &gens, &none)?, Finite::No(1));
    Ok(())
}

#[test]
fn finite_for_three(rt: HostRuntime) -> Result<(), Fail> {
    let gens = nine(rt.alloc())?;
    for case in &OVER_NINE {
        answers(&rt, rt.alloc(), &gens, case)?;
    }
    Ok(())
}

#[test]
fn combinations_in_order(rt: HostRuntime) -> Result<(), Fail> {
    for case in &COMBINATIONS {
        lists(&rt, rt.alloc(), case)?;
    }
    Ok(())
}

#[test]
fn combinations_of_nothing(rt: HostRuntime) -> Result<(), Fail> {
    let list = combinations(rt.alloc(), Prime::P2, 0)?;
    assert!(rt; list.is_empty());
    Ok(())
}

// The table of two subgroups with these generators, without candidates.
fn two_subgroups(alloc: Global, p: Prime, first: Gens, second: Gens) -> Result<ParamTable, Memory>
    requires first { first.prime ≡ prime_value p }
    requires second { second.prime ≡ prime_value p }
    ensures subgroups { IfOk result (λ t. t.subgroups ≡ first ∷ second ∷ []) }
    ensures candidates { IfOk result (λ t. t.candidates ≡ []) }
{
    let mut table = ParamTable::new(alloc, p);
    table.add_subgroup(first)?;
    table.add_subgroup(second)?;
    Ok(table)
}

// Candidates for C3 x C3 and again C3 x C3: x_1 x_2, and y_1.
fn low_nine(alloc: Global, gens: &Gens) -> Result<ParamTable, Memory>
    requires { gens.now ≡ record { prime = 3; degrees = 1 ∷ 1 ∷ 2 ∷ 2 ∷ [] } }
    ensures subgroups { IfOk result (λ t. t.subgroups ≡ gens.now ∷ gens.now ∷ []) }
    ensures count { IfOk result (λ t. length t.candidates ≡ 2) }
    ensures order { IfOk result (λ t. All (λ c. c.degree ≤ 2) t.candidates) }
{
    let mut table = two_subgroups(alloc, Prime::P3, nine(alloc)?, nine(alloc)?)?;
    add(alloc, &mut table, gens, 2, &[0], &[0])?;
    add(alloc, &mut table, gens, 2, &[1], &[1])?;
    Ok(table)
}

#[test]
fn parameters_of_nine(rt: HostRuntime) -> Result<(), Fail> {
    let gens = nine(rt.alloc())?;
    let mut table = low_nine(rt.alloc(), &gens)?;
    finds_none(&rt, rt.alloc(), &table, 2)?;
    // y_2
    add(rt.alloc(), &mut table, &gens, 2, &[2], &[2])?;
    finds(&rt, rt.alloc(), &table, 2, &[1, 2])?;
    finds_none(&rt, rt.alloc(), &table, 4)
}

// Candidates for C2 x C2 and again C2 x C2: x, y, x + y and w, where x w is finite on the first alone.
fn dihedral(alloc: Global, gens: &Gens) -> Result<ParamTable, Memory>
    requires { gens.now ≡ record { prime = 2; degrees = 1 ∷ 1 ∷ [] } }
{
    let mut table = two_subgroups(alloc, Prime::P2, four(alloc)?, four(alloc)?)?;
    add(alloc, &mut table, gens, 1, &[0], &[])?;
    add(alloc, &mut table, gens, 1, &[], &[0])?;
    add(alloc, &mut table, gens, 1, &[0], &[0])?;
    add(alloc, &mut table, gens, 2, &[1, 2], &[1, 2])?;
    Ok(table)
}

#[test]
fn parameters_of_dihedral(rt: HostRuntime) -> Result<(), Fail> {
    let gens = four(rt.alloc())?;
    let table = dihedral(rt.alloc(), &gens)?;
    finds(&rt, rt.alloc(), &table, 2, &[2, 3])
}

#[test]
fn parameters_of_rank_zero(rt: HostRuntime) -> Result<(), Fail> {
    let table = ParamTable::new(rt.alloc(), Prime::P2);
    finds(&rt, rt.alloc(), &table, 0, &[])?;
    let table = two_subgroups(rt.alloc(), Prime::P2, four(rt.alloc())?, four(rt.alloc())?)?;
    finds_none(&rt, rt.alloc(), &table, 0)
}
