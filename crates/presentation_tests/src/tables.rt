use small_groups::*;
use std::test::Fail;

const ALL: [SmallGroup; 12] = [
    SmallGroup::Trivial,
    SmallGroup::Two,
    SmallGroup::Four,
    SmallGroup::Three,
    SmallGroup::Klein,
    SmallGroup::Nine,
    SmallGroup::Dihedral,
    SmallGroup::Quaternion,
    SmallGroup::Sixteen,
    SmallGroup::TwentySeven,
    SmallGroup::ThirtyTwoPlus,
    SmallGroup::ThirtyTwoMinus,
];

#[test]
fn the_tables_are_groups(rt: HostRuntime) -> Result<(), Fail> {
    for kind in ALL {
        let group = kind.group(rt.alloc())?;
        assert_eq!(rt; group.order(), kind.order());
    }
    Ok(())
}

#[test]
fn the_quaternion_group_has_one_involution(rt: HostRuntime) -> Result<(), Fail> {
    let group = SmallGroup::Quaternion.group(rt.alloc())?;
    assert_eq!(rt; group.order(), 8);
    for a in 1..8 {
        assert_eq!(rt; group.mul(a, a) == 0, a == 4);
    }
    Ok(())
}
