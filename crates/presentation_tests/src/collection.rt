ghost use Rattle.std.specs.Prelude.{◌≡◌, ◌<◌, ◌≤◌, ◌^◌, IsTrue, IfOk};
ghost use Rattle.group_table.specs.Tables.{order};
ghost use Rattle.group_table.specs.Prime.{prime_value};
ghost use Rattle.power_commutator.specs.Presentations.{IsWord};

use crate::known_groups::*;
use group_table::{Group, Prime};
use limits::MOST_GENERATORS;
use pc_group::*;
use smallvec::SmallVec;
use std::alloc::Global;
use std::process::Abort;
use std::test::Fail;

// The list has n exponents below p, and none but 0 before place j.
fn is_word(prime: u8, gens: u32, j: u32, exponents: &[u8]) -> bool
    ensures { IsTrue result → IsWord prime gens j exponents.now }
{
    for (k, e) in exponents.iter().enumerate() {
        if *e >= prime || (k < j as usize && *e != 0) {
            return false;
        }
    }
    exponents.len() == gens as usize
}

fn is_small(prime: Prime, gens: u32) -> bool
    ensures { IsTrue result → prime_value prime ^ gens ≤ 256 }
{
    match prime {
        Prime::P2 => gens <= 8,
        Prime::P3 => gens <= 5,
        Prime::P5 => gens <= 3,
        Prime::P7 => gens <= 2,
    }
}

fn set_powers(
    rt: &impl Abort,
    alloc: Global,
    relations: &Relations<'_>,
    made: &mut Presentation,
) -> Result<(), Fail> {
    for (i, exponents) in relations.powers {
        assert!(rt; 0 < *i && *i <= made.gens());
        assert!(rt; is_word(made.prime().value(), made.gens(), *i, exponents));
        made.set_power(*i, SmallVec::from_slice(alloc, exponents)?);
    }
    Ok(())
}

fn set_commutators(
    rt: &impl Abort,
    alloc: Global,
    relations: &Relations<'_>,
    made: &mut Presentation,
) -> Result<(), Fail> {
    for (j, i, exponents) in relations.commutators {
        assert!(rt; 0 < *i && *i < *j && *j <= made.gens());
        assert!(rt; is_word(made.prime().value(), made.gens(), *j, exponents));
        made.set_commutator(*j, *i, SmallVec::from_slice(alloc, exponents)?);
    }
    Ok(())
}

fn presentation_of(
    rt: &impl Abort,
    alloc: Global,
    relations: &Relations<'_>,
) -> Result<Presentation, Fail> {
    assert!(rt; relations.gens <= MOST_GENERATORS);
    let mut made = Presentation::new(alloc, relations.prime, relations.gens)?;
    set_powers(rt, alloc, relations, &mut made)?;
    set_commutators(rt, alloc, relations, &mut made)?;
    Ok(made)
}

fn tested(
    rt: &impl Abort,
    alloc: Global,
    relations: &Relations<'_>,
) -> Result<Result<Consistent, Refused>, Fail> {
    let made = presentation_of(rt, alloc, relations)?;
    assert!(rt; is_small(made.prime(), made.gens()));
    Ok(check(alloc, made))
}

fn consistent(
    rt: &impl Abort,
    alloc: Global,
    relations: &Relations<'_>,
) -> Result<Consistent, Fail> {
    Ok(tested(rt, alloc, relations)?.ok().ok_or("refused")?)
}

// The order of an element, as the first exponent whose power is 1.
fn order_of(group: &Group, e: u16) -> u32
    requires { e < order group.now }
{
    for k in 1..257 {
        if group.power(e, k) == 0 {
            return k;
        }
    }
    0
}

fn count_of_order(group: &Group, order: u32) -> usize {
    let mut count = 0;
    for e in 0..group.order() {
        if order_of(group, e) == order {
            count += 1;
        }
    }
    count
}

fn assert_orders(rt: &impl Abort, group: &Group, orders: &[(u32, usize)]) {
    for (order, count) in orders {
        assert_eq!(rt; count_of_order(group, *order), *count);
    }
}

fn assert_fault(
    rt: &impl Abort,
    alloc: Global,
    relations: &Relations<'_>,
    want: TestName,
) -> Result<(), Fail> {
    match tested(rt, alloc, relations)? {
        Ok(_) => panic!(rt; "no false test"),
        Err(Refused::Memory { .. }) => panic!(rt; "out of memory"),
        Err(Refused::Fault { name, presentation }) => {
            assert_eq!(rt; name, want);
            assert_eq!(rt; presentation.gens(), relations.gens);
        }
    }
    Ok(())
}

#[test]
fn names_the_first_false_test(rt: HostRuntime) -> Result<(), Fail> {
    assert_fault(&rt, rt.alloc(), &UNFIXED, TestName::Fixed { i: 1 })?;
    assert_fault(&rt, rt.alloc(), &TWISTED, TestName::Twist { i: 1, j: 2 })
}

fn assert_group(
    rt: &impl Abort,
    alloc: Global,
    relations: &Relations<'_>,
    order: u16,
    orders: &[(u32, usize)],
) -> Result<(), Fail> {
    let group = group_of(alloc, &consistent(rt, alloc, relations)?)?;
    assert_eq!(rt; group.order(), order);
    assert_orders(rt, &group, orders);
    Ok(())
}

#[test]
fn makes_groups_with_elements_of_known_orders(rt: HostRuntime) -> Result<(), Fail> {
    for (relations, order, orders) in &KNOWN {
        assert_group(&rt, rt.alloc(), relations, *order, orders)?;
    }
    Ok(())
}

const NUMBERS: [([u8; 3], u16); 4] = [
    ([0, 0, 0], 0),
    ([1, 0, 0], 1),
    ([0, 1, 0], 2),
    ([0, 1, 1], 6),
];

fn assert_number(
    rt: &impl Abort,
    alloc: Global,
    c: &Consistent,
    exponents: &[u8],
    want: u16,
) -> Result<(), Fail> {
    let p = c.presentation();
    assert!(rt; is_word(p.prime().value(), p.gens(), 0, exponents));
    let e = number(c, &SmallVec::from_slice(alloc, exponents)?);
    assert_eq!(rt; e, want);
    assert_eq!(rt; word_of(c, e).as_slice(), exponents);
    Ok(())
}

#[test]
fn numbers_the_elements(rt: HostRuntime) -> Result<(), Fail> {
    let q8 = consistent(&rt, rt.alloc(), &QUATERNION)?;
    for (exponents, want) in NUMBERS {
        assert_number(&rt, rt.alloc(), &q8, &exponents, want)?;
    }
    Ok(())
}

#[test]
fn keeps_the_words_that_are_set(rt: HostRuntime) -> Result<(), Fail> {
    let made = presentation_of(&rt, rt.alloc(), &QUATERNION)?;
    assert_eq!(rt; made.prime(), Prime::P2);
    assert_eq!(rt; made.gens(), 3);
    assert_eq!(rt; made.power_word(1).as_slice(), [0, 0, 1].as_slice());
    assert_eq!(rt; made.power_word(3).as_slice(), [0, 0, 0].as_slice());
    assert_eq!(rt; made.commutator(2, 1).as_slice(), [0, 0, 1].as_slice());
    assert_eq!(rt; made.commutator(3, 2).as_slice(), [0, 0, 0].as_slice());
    Ok(())
}

#[test]
fn makes_a_group_of_order_128(rt: HostRuntime) -> Result<(), Fail> {
    let elementary = consistent(&rt, rt.alloc(), &ELEMENTARY_128)?;
    let group = elementary.group();
    assert_eq!(rt; group.order(), 128);
    assert_eq!(rt; count_of_order(group, 2), 127);
    Ok(())
}

fn of_three_generators(
    rt: &impl Abort,
    alloc: Global,
    relations: &Relations<'_>,
) -> Result<Consistent, Fail>
    ensures { IfOk result (λ c. c.gens ≡ 3) }
{
    let c = consistent(rt, alloc, relations)?;
    assert!(rt; c.presentation().gens() == 3);
    Ok(c)
}

#[test]
fn collects_from_the_left(rt: HostRuntime) -> Result<(), Fail> {
    let q8 = of_three_generators(&rt, rt.alloc(), &QUATERNION)?;
    let word = collect(rt.alloc(), &q8, &[2, 1])?;
    assert_eq!(rt; word.as_slice(), [1, 1, 1].as_slice());
    Ok(())
}

// In the dihedral group (g_2 g_1)^2 is g_3.
#[test]
fn collects_a_square(rt: HostRuntime) -> Result<(), Fail> {
    let d8 = of_three_generators(&rt, rt.alloc(), &DIHEDRAL_8)?;
    let word = collect(rt.alloc(), &d8, &[2, 1, 2, 1])?;
    assert_eq!(rt; word.as_slice(), [0, 0, 1].as_slice());
    Ok(())
}

// With exponent 3, g_2^2 g_1 is g_1 g_2^2 g_3^2.
#[test]
fn collects_past_a_power(rt: HostRuntime) -> Result<(), Fail> {
    let heisenberg = of_three_generators(&rt, rt.alloc(), &HEISENBERG_3)?;
    let word = collect(rt.alloc(), &heisenberg, &[2, 2, 1])?;
    assert_eq!(rt; word.as_slice(), [1, 2, 2].as_slice());
    Ok(())
}
