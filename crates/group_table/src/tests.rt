ghost use Rattle.std.specs.Prelude.{◌≡◌, ◌*◌, ◌<◌, All, IfOk, vec_len};

use super::*;
use std::alloc::Global;
use std::process::Abort;
use std::test::Fail;

// Quaternions 1, -1, i, -i, j, -j, k, -k, by Hamilton's rules.
const QUATERNION: [u16; 64] = [
    0, 1, 2, 3, 4, 5, 6, 7, //
    1, 0, 3, 2, 5, 4, 7, 6, //
    2, 3, 1, 0, 6, 7, 5, 4, //
    3, 2, 0, 1, 7, 6, 4, 5, //
    4, 5, 7, 6, 1, 0, 2, 3, //
    5, 4, 6, 7, 0, 1, 3, 2, //
    6, 7, 4, 5, 3, 2, 1, 0, //
    7, 6, 5, 4, 2, 3, 0, 1, //
];

fn table_of(
    rt: &impl Abort,
    alloc: Global,
    order: u16,
    entries: &[u16],
) -> Result<Vec<u16>, AllocError>
    ensures { IfOk result (λ table. (vec_len table ≡ order * order) × All (λ e. e < order) table.items) }
{
    assert_eq!(rt; entries.len(), order as usize * order as usize);
    assert!(rt; entries.iter().all(|e| *e < order));
    Vec::from_slice(alloc, entries)
}

#[test]
fn knows_the_four_primes(rt: HostRuntime) {
    for (number, prime) in [
        (2, Prime::P2),
        (3, Prime::P3),
        (5, Prime::P5),
        (7, Prime::P7),
    ] {
        assert_eq!(rt; Prime::of(number), Some(prime));
        assert_eq!(rt; prime.value() as u32, number);
    }
    assert_eq!(rt; Prime::of(4), None);
}

#[test]
fn makes_the_group_of_two_elements(rt: HostRuntime) -> Result<(), Fail> {
    let table = table_of(&rt, rt.alloc(), 2, &[0, 1, 1, 0])?;
    let group = Group::from_table(rt.alloc(), Prime::P2, 1, table)?;
    assert_eq!(rt; group.order(), 2);
    assert_eq!(rt; group.prime(), Prime::P2);
    assert_eq!(rt; group.rank(), 1);
    Ok(())
}

#[test]
fn names_a_row_with_an_entry_twice(rt: HostRuntime) -> Result<(), Fail> {
    let table = table_of(&rt, rt.alloc(), 2, &[0, 1, 1, 1])?;
    let fault = Group::from_table(rt.alloc(), Prime::P2, 1, table).err();
    assert_eq!(rt; fault, Some(TableFault::NotLatin(1)));
    Ok(())
}

// In each table of four elements the named place is not the first entry, and what comes before it is in
// order.
#[test]
fn names_the_first_fault(rt: HostRuntime) -> Result<(), Fail> {
    for (entries, fault) in [
        // 2 * 0 is 3, and row 3 has an entry twice
        (
            [0, 1, 2, 3, 1, 0, 3, 2, 3, 2, 1, 0, 3, 3, 3, 3],
            TableFault::NotUnit(2),
        ),
        // 0 * 2 is 3
        (
            [0, 1, 3, 2, 1, 0, 3, 2, 2, 3, 0, 1, 3, 2, 1, 0],
            TableFault::NotUnit(2),
        ),
        // row 3 has 1 twice
        (
            [0, 1, 2, 3, 1, 0, 3, 2, 2, 3, 0, 1, 3, 2, 1, 1],
            TableFault::NotLatin(3),
        ),
    ] {
        let table = table_of(&rt, rt.alloc(), 4, &entries)?;
        assert_eq!(rt;
            Group::from_table(rt.alloc(), Prime::P2, 2, table).err(),
            Some(fault)
        );
    }
    Ok(())
}

// A loop of five elements: each row and column has each element, and (1 1) 2 = 2, but 1 (1 2) = 1 * 3 = 4.
#[test]
fn names_the_first_triple_that_does_not_associate(rt: HostRuntime) -> Result<(), Fail> {
    let entries = [
        0, 1, 2, 3, 4, //
        1, 0, 3, 4, 2, //
        2, 4, 0, 1, 3, //
        3, 2, 4, 0, 1, //
        4, 3, 1, 2, 0, //
    ];
    let table = table_of(&rt, rt.alloc(), 5, &entries)?;
    let fault = Group::from_table(rt.alloc(), Prime::P5, 1, table).err();
    assert_eq!(rt; fault, Some(TableFault::NotAssociative(1, 1, 2)));
    Ok(())
}

#[test]
fn calculates_with_quaternions(rt: HostRuntime) -> Result<(), Fail> {
    let table = table_of(&rt, rt.alloc(), 8, &QUATERNION)?;
    let group = Group::from_table(rt.alloc(), Prime::P2, 3, table)?.try_clone(rt.alloc())?;
    assert_eq!(rt; group.order(), 8);
    let (i, j) = (2, 4);
    assert_eq!(rt; (group.mul(i, j), group.mul(j, i)), (6, 7));
    assert_eq!(rt; (group.inv(0), group.inv(1), group.inv(i)), (0, 1, 3));
    assert_eq!(rt;
        (group.power(i, 0), group.power(i, 2), group.power(i, 3)),
        (0, 1, 3)
    );
    assert_eq!(rt; group.conj(i, j), 3);
    assert!(rt; group.commute(i, 1) && !group.commute(i, j));
    Ok(())
}
