ghost use Rattle.std.specs.Prelude.{◌≡◌, ◌<◌, ◌≤◌, ◌^◌, length, IfOk};
ghost use Rattle.group_table.specs.Prime.{prime_value};

use crate::given::{lists, matrix_of, row_of, shows};
use fp_rows::{Matrix, Row, RowRef, echelon};
use group_table::{Memory, Prime};
use neg_basis::{NegBasis, Ops, Origin};
use std::alloc::Global;
use std::process::Abort;
use std::test::Fail;

// The one map that sends unit vector i to row i of a square matrix.
#[derive(Drop)]
struct OneMap {
    matrix: Matrix,
    ghost square: { length matrix.rows ≡ matrix.width },
}

impl Ops for OneMap {
    ghost use Rattle.std.specs.Prelude.{length};
    ghost use Rattle.linear_algebra.specs.Maps.{times_matrix};
    ghost use Rattle.linear_algebra.specs.Rows.{entry, row};
    ghost use Rattle.linear_algebra.proofs.LinearMaps.{matrix_is_linear};

    ghost modulus = { λ o. o.matrix.p };

    ghost width = { λ o. o.matrix.width };

    ghost maps = { λ _. 1 };

    ghost image = { λ o i. times_matrix (length o.matrix.rows) (λ k j. entry (row o.matrix.rows k) j) };

    ghost linear = { λ o i l. matrix_is_linear o.matrix.p (length o.matrix.rows)
        (λ k j. entry (row o.matrix.rows k) j) };

    fn count(&self) -> usize {
        1
    }

    fn apply(&self, i: usize, v: RowRef<'_>, out: &mut Row) {
        let _i = i;
        let _rows = self.matrix.rows();
        self.matrix.combine(v, out);
    }
}

// The map that sends (a, b) to (0, a).
fn shift(rt: &impl Abort, alloc: Global, p: Prime) -> Result<OneMap, Memory>
    ensures prime { IfOk result (λ o. o.matrix.p ≡ prime_value p) }
    ensures width { IfOk result (λ o. o.matrix.width ≡ 2) }
{
    let matrix = matrix_of(rt, alloc, p, 2, &[0, 1, 0, 0])?;
    assert_eq!(rt; matrix.rows(), 2);
    Ok(OneMap { matrix })
}

// The basis of the submodule that the rows, of two numbers each, generate under the shift.
fn basis_of(rt: &impl Abort, alloc: Global, p: Prime, rows: &[u8]) -> Result<NegBasis, Memory>
    ensures prime { IfOk result (λ b. b.p ≡ prime_value p) }
    ensures width { IfOk result (λ b. b.width ≡ 2) }
{
    let map = shift(rt, alloc, p)?;
    let gens = matrix_of(rt, alloc, p, 2, rows)?;
    assert!(rt; gens.rows() <= 2);
    NegBasis::from_generators(alloc, &map, &gens)
}

// The basis of the submodule that the images of the rows of the list generate under the shift.
fn images_of(rt: &impl Abort, alloc: Global, p: Prime, rows: &[u8]) -> Result<NegBasis, Memory> {
    let map = shift(rt, alloc, p)?;
    let list = echelon(alloc, &matrix_of(rt, alloc, p, 2, rows)?)?;
    assert!(rt; list.rows() <= 2);
    NegBasis::of_images(alloc, &map, &list)
}

// A vector of a basis: its numbers, its head and the row of the generators, or the vector, that it comes from.
#[derive(Clone, Copy)]
struct Vector {
    entries: [u8; 2],
    head: usize,
    origin: Origin,
}

fn same_origin(a: Origin, b: Origin) -> bool {
    match (a, b) {
        (Origin::Chosen(r), Origin::Chosen(s)) => r == s,
        (
            Origin::Step { map, of },
            Origin::Step {
                map: other,
                of: earlier,
            },
        ) => { map == other && of == earlier }
        _ => false,
    }
}

// Vector i of the basis is this one.
fn is_vector(basis: &NegBasis, i: usize, v: Vector) -> bool
    requires { i < length basis.now.vectors }
{
    shows(basis.vector(i), &v.entries)
        && basis.head(i) == v.head
        && same_origin(basis.origin(i), v.origin)
}

// The basis has these vectors.
fn has_vectors(basis: &NegBasis, vectors: &[Vector]) -> bool {
    if basis.len() != vectors.len() {
        return false;
    }
    for (i, v) in vectors.iter().enumerate() {
        if !is_vector(basis, i, *v) {
            return false;
        }
    }
    true
}

#[test]
fn moves_one_generator_on(rt: HostRuntime) -> Result<(), Fail> {
    let basis = basis_of(&rt, rt.alloc(), Prime::P2, &[1, 0])?;
    let first = Vector {
        entries: [1, 0],
        head: 0,
        origin: Origin::Chosen(0),
    };
    let second = Vector {
        entries: [0, 1],
        head: 1,
        origin: Origin::Step { map: 0, of: 0 },
    };
    assert!(rt; has_vectors(&basis, &[first, second]));
    Ok(())
}

#[test]
fn chooses_two_generators(rt: HostRuntime) -> Result<(), Fail> {
    let basis = basis_of(&rt, rt.alloc(), Prime::P2, &[0, 1, 1, 0])?;
    let first = Vector {
        entries: [0, 1],
        head: 1,
        origin: Origin::Chosen(0),
    };
    let second = Vector {
        entries: [1, 0],
        head: 0,
        origin: Origin::Chosen(1),
    };
    assert!(rt; has_vectors(&basis, &[first, second]));
    let rows = basis.generators(rt.alloc())?;
    assert_eq!(rt; rows.len(), 2);
    assert_eq!(rt; (rows.get(0), rows.get(1)), (0, 1));
    Ok(())
}

// The span of (0, 1) over p = 3: (2, 1) is outside and reduces to (2, 0), and (0, 2) is inside.
fn reduces_by_basis(rt: &impl Abort, alloc: Global, basis: &NegBasis) -> Result<(), Memory>
    requires prime { basis.now.p ≡ 3 }
    requires width { basis.now.width ≡ 2 }
{
    let mut v = row_of(rt, alloc, Prime::P3, &[2, 1])?;
    assert!(rt; !basis.contains(v.view()));
    basis.reduce(&mut v);
    assert!(rt; shows(v.view(), &[2, 0]));
    let member = row_of(rt, alloc, Prime::P3, &[0, 2])?;
    assert!(rt; basis.contains(member.view()));
    Ok(())
}

// (0, 0) and (0, 2) over p = 3: row 0 is not chosen, and the one vector is (0, 1).
#[test]
fn scales_and_reduces(rt: HostRuntime) -> Result<(), Fail> {
    let basis = basis_of(&rt, rt.alloc(), Prime::P3, &[0, 0, 0, 2])?;
    let only = Vector {
        entries: [0, 1],
        head: 1,
        origin: Origin::Chosen(1),
    };
    assert!(rt; has_vectors(&basis, &[only]));
    let e = basis.echelon(rt.alloc())?;
    assert!(rt; lists(&e, &[&[0, 1]]));
    reduces_by_basis(&rt, rt.alloc(), &basis)?;
    Ok(())
}

// The image of (1, 0) is (0, 1), and the image of that is 0.
#[test]
fn takes_the_images_of_a_list(rt: HostRuntime) -> Result<(), Fail> {
    let basis = images_of(&rt, rt.alloc(), Prime::P2, &[1, 0])?;
    let only = Vector {
        entries: [0, 1],
        head: 1,
        origin: Origin::Chosen(0),
    };
    assert!(rt; has_vectors(&basis, &[only]));
    assert!(rt; lists(basis.reduced(), &[&[0, 1]]));
    Ok(())
}
