use crate::given::{matrix_of, row_of, shows};
use fp_rows::{Positions, RowRef};
use group_table::Prime;
use std::test::Fail;

#[test]
fn writes_adds_and_clears(rt: HostRuntime) -> Result<(), Fail> {
    let mut row = row_of(&rt, rt.alloc(), Prime::P3, &[1, 2, 0])?;
    let other = row_of(&rt, rt.alloc(), Prime::P3, &[2, 2, 1])?;
    row.add(2, other.view());
    assert!(rt; shows(row.view(), &[2, 0, 2]));
    let whole = row.view();
    assert_eq!(rt; whole.len(), 3);
    assert!(rt; shows(whole.part(1, 2), &[0, 2]));
    row.clear();
    assert!(rt; shows(row.view(), &[0, 0, 0]));
    row.set_unit(1);
    assert!(rt; shows(row.view(), &[0, 1, 0]));
    assert_eq!(rt; other.view().sum(), 2);
    assert_eq!(rt; other.view().pairing(other.view()), 0);
    Ok(())
}

#[test]
fn combines_rows(rt: HostRuntime) -> Result<(), Fail> {
    let m = matrix_of(&rt, rt.alloc(), Prime::P3, 2, &[1, 2, 2, 0])?;
    let u = row_of(&rt, rt.alloc(), Prime::P3, &[2, 1])?;
    let mut out = row_of(&rt, rt.alloc(), Prime::P3, &[2, 2])?;
    assert_eq!(rt; m.rows(), 2);
    m.combine(u.view(), &mut out);
    assert!(rt; shows(out.view(), &[1, 1]));
    Ok(())
}

#[test]
fn keeps_rows_and_blocks(rt: HostRuntime) -> Result<(), Fail> {
    let m = matrix_of(&rt, rt.alloc(), Prime::P5, 3, &[1, 2, 3, 4, 0, 1])?;
    assert_eq!(rt; (m.rows(), m.width(), m.prime()), (2, 3, Prime::P5));
    assert!(rt; shows(m.row(1), &[4, 0, 1]));
    assert!(rt; shows(m.block(0, 1, 2), &[2, 3]));
    Ok(())
}

#[test]
fn lists_positions(rt: HostRuntime) -> Result<(), Fail> {
    let mut positions = Positions::new(rt.alloc());
    positions.push(7)?;
    positions.push(3)?;
    assert_eq!(rt; positions.len(), 2);
    assert_eq!(rt; (positions.get(0), positions.get(1)), (7, 3));
    Ok(())
}

#[test]
fn shows_bytes_as_a_row(rt: HostRuntime) {
    let bytes = [0, 2, 1];
    let row = RowRef::of_bytes(Prime::P3, &bytes);
    assert!(rt; shows(row, &[0, 2, 1]));
    assert_eq!(rt; row.pairing(row), 2);
}

#[test]
fn adds_words(rt: HostRuntime) -> Result<(), Fail> {
    let mut row = row_of(&rt, rt.alloc(), Prime::P2, &[1, 0, 1, 1, 0])?;
    assert_eq!(rt; (row.len(), row.view().word(1, 3)), (5, 6));
    row.add_word(2, 2, 7);
    assert!(rt; shows(row.view(), &[1, 0, 0, 0, 0]));
    Ok(())
}
