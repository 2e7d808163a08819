ghost use Rattle.std.specs.Prelude.{◌≡◌, length};
ghost use Rattle.group_table.specs.Tables.{order};

use group_table::Group;
use small_groups::SmallGroup;
use std::alloc::Global;
use std::process::Abort;
use std::test::Fail;
use subgroup_list::*;

fn assert_basis(rt: &impl Abort, kind: SmallGroup, s: &ElemAb, basis: &[u16]) {
    assert!(rt; s.rank() == basis.len(), "{kind:?}");
    for i in 0..s.rank() {
        assert_eq!(rt; s.basis(i), basis[i], "{kind:?}");
    }
}

fn assert_bases(
    rt: &impl Abort,
    alloc: Global,
    kind: SmallGroup,
    bases: &[&[u16]],
) -> Result<(), Fail> {
    let subgroups = max_elementary(alloc, &kind.group(alloc)?)?;
    assert!(rt; subgroups.len() == bases.len(), "{kind:?}");
    assert!(rt; !subgroups.is_empty());
    for i in 0..subgroups.len() {
        assert_basis(rt, kind, subgroups.get(i), bases[i]);
    }
    Ok(())
}

const BASES: [(SmallGroup, &[&[u16]]); 7] = [
    (SmallGroup::Trivial, &[&[]]),
    (SmallGroup::Dihedral, &[&[1, 4], &[2, 4]]),
    (SmallGroup::Quaternion, &[&[4]]),
    (SmallGroup::Sixteen, &[&[2, 4, 8]]),
    (
        SmallGroup::TwentySeven,
        &[&[1, 9], &[3, 9], &[4, 8], &[5, 7]],
    ),
    (
        SmallGroup::ThirtyTwoPlus,
        &[
            &[1, 4, 16],
            &[1, 8, 16],
            &[2, 4, 16],
            &[2, 8, 16],
            &[5, 10, 16],
            &[6, 9, 15],
        ],
    ),
    (
        SmallGroup::ThirtyTwoMinus,
        &[&[1, 16], &[2, 16], &[7, 16], &[11, 16], &[15, 16]],
    ),
];

// By hand: those of an extraspecial 2-group are the centre with the largest subspaces on which the squares
// are 1. For 32 with the plus sign the expected bases are an independent implementation's.
#[test]
fn lists_one_subgroup_of_each_class(rt: HostRuntime) -> Result<(), Fail> {
    for (kind, bases) in BASES {
        assert_bases(&rt, rt.alloc(), kind, bases)?;
    }
    Ok(())
}

// A subgroup by its place: its members, its elements by their numbers, and a product in its own numbering.
struct Numbered {
    kind: SmallGroup,
    place: usize,
    members: &'static [u16],
    elements: &'static [u16],
    product: (u16, u16, u16),
}

// By hand. In the subgroup of 27 with the basis 4, 8 the number 2 is 4^2 = 17, and 5 is 4^2 8 = 22; 5 and 7
// are 2 + 3 and 1 + 2 * 3.
const NUMBERED: [Numbered; 3] = [
    Numbered {
        kind: SmallGroup::Dihedral,
        place: 0,
        members: &[0, 1, 4, 5],
        elements: &[0, 1, 4, 5],
        product: (1, 3, 2),
    },
    Numbered {
        kind: SmallGroup::Dihedral,
        place: 1,
        members: &[0, 2, 4, 6],
        elements: &[0, 2, 4, 6],
        product: (1, 2, 3),
    },
    Numbered {
        kind: SmallGroup::TwentySeven,
        place: 2,
        members: &[0, 4, 8, 9, 13, 17, 18, 22, 26],
        elements: &[0, 4, 17, 8, 18, 22, 13, 26, 9],
        product: (5, 7, 0),
    },
];

fn assert_members(rt: &impl Abort, s: &ElemAb, members: &[u16]) {
    assert!(rt; s.size() == members.len());
    for k in 0..s.size() {
        assert_eq!(rt; s.member(k), members[k]);
    }
}

fn assert_elements(rt: &impl Abort, s: &ElemAb, own: &Group, elements: &[u16])
    requires { length s.now.images ≡ order own.now }
{
    assert!(rt; own.order() as usize == elements.len());
    for e in 0..own.order() {
        assert_eq!(rt; s.embed(e), elements[e as usize]);
    }
}

fn assert_numbered(rt: &impl Abort, alloc: Global, case: &Numbered) -> Result<(), Fail> {
    let group = case.kind.group(alloc)?;
    let subgroups = max_elementary(alloc, &group)?;
    assert!(rt; case.place < subgroups.len());
    let s = subgroups.get(case.place);
    assert_members(rt, s, case.members);
    let own = s.group(alloc, &group)?;
    assert_elements(rt, s, &own, case.elements);
    let (a, b, ab) = case.product;
    assert!(rt; a < own.order() && b < own.order());
    assert_eq!(rt; own.mul(a, b), ab);
    Ok(())
}

#[test]
fn numbers_the_elements(rt: HostRuntime) -> Result<(), Fail> {
    for case in &NUMBERED {
        assert_numbered(&rt, rt.alloc(), case)?;
    }
    Ok(())
}
