//! The quaternion group of order 8 through degree 3: generators x and y of degree 1 with x² + xy + y² = 0 and
//! x²y + xy² = 0 (Adem and Milgram, "Cohomology of Finite Groups", IV.2).

ghost use Rattle.std.specs.Prelude.{◌≡◌, suc, ◌<◌, ◌≤◌, [], ◌∷◌, length, All, IfOk, OnOk};
ghost use Rattle.limits.specs.declared.TheConstants.{GREATEST_DEGREE};
ghost use Rattle.graded_polynomials.specs.Texts.{power};
ghost use Rattle.ring_degree.specs.Tables.{AreTables, standard_at};

use fp_rows::{Echelon, Matrix, Row, echelon};
use gc_poly::{Gens, Mono, Monos};
use group_table::{Memory, Prime};
use ring_degree::{Table, finish, next_degree};
use std::alloc::Global;
use std::process::Abort;
use std::test::Fail;

fn generators(alloc: Global) -> Result<Gens, Memory>
    ensures { IfOk result (λ g. g ≡ record { prime = 2; degrees = 1 ∷ 1 ∷ [] }) }
{
    let mut gens = Gens::new(alloc, Prime::P2);
    gens.push(1)?;
    gens.push(1)?;
    Ok(gens)
}

// The monomials of degree 1.
fn monomials(alloc: Global) -> Result<Monos, Memory>
    ensures { IfOk result (λ ms. ms ≡ power 0 1 ∷ power 1 1 ∷ []) }
{
    let x = Mono::of(alloc, &[1])?;
    let y = Mono::of(alloc, &[0, 1])?;
    let mut monomials = Monos::new(alloc);
    monomials.push(x)?;
    monomials.push(y)?;
    Ok(monomials)
}

// The table of degree 0.
fn one(alloc: Global) -> Result<Table, Memory>
    ensures { IfOk result (λ t. t.standard ≡ [] ∷ []) }
{
    let unit = Mono::of(alloc, &[])?;
    let mut standard = Monos::new(alloc);
    standard.push(unit)?;
    Ok(Table {
        standard,
        products: Vec::new(alloc),
    })
}

// The tables of degrees 0 and 1.
fn low_degrees(alloc: Global, gens: &Gens) -> Result<Vec<Table>, Memory>
    requires { gens.now ≡ record { prime = 2; degrees = 1 ∷ 1 ∷ [] } }
    ensures count { IfOk result (λ ts. length ts.items ≡ 2) }
    ensures tables { IfOk result (λ ts. AreTables gens.now ts.items) }
    ensures one { IfOk result (λ ts. standard_at ts.items 0 ≡ [] ∷ []) }
{
    let mut tables = Vec::new(alloc);
    tables.push(one(alloc)?)?;
    let left = monomials(alloc)?;
    let kernel = echelon(alloc, &Matrix::new(alloc, gens.prime(), left.len()))?;
    let forms = Vec::new(alloc);
    let table = finish(
        alloc,
        gens,
        tables.as_slice(),
        forms.as_slice(),
        0,
        &left,
        &kernel,
    )?;
    tables.push(table)?;
    Ok(tables)
}

// The sum of the members from a place on is 0.
fn relation(alloc: Global, width: usize, from: usize) -> Result<Echelon, Memory>
    ensures prime { IfOk result (λ e. e.p ≡ 2) }
    ensures width { IfOk result (λ e. e.width ≡ width) }
{
    let mut row = Row::zero(alloc, Prime::P2, width)?;
    for j in from..width {
        row.set(j, 1);
    }
    let mut rows = Matrix::new(alloc, Prime::P2, width);
    rows.push(row.view())?;
    let kernel = echelon(alloc, &rows)?;
    Ok(kernel)
}

// Adds the table of the next degree, in which no generator is new.
fn add_degree(
    alloc: Global,
    gens: &Gens,
    tables: &mut Vec<Table>,
    from: usize,
) -> Result<(), Memory>
    requires prime { gens.now.prime ≡ 2 }
    requires some { 0 < length tables.old.items }
    requires small { length tables.old.items ≤ GREATEST_DEGREE }
    requires below { All (λ e. e < length tables.old.items) gens.now.degrees }
    requires tables { AreTables gens.now tables.old.items }
    requires one { standard_at tables.old.items 0 ≡ [] ∷ [] }
    ensures count { OnOk result (length tables.new.items ≡ suc (length tables.old.items)) }
    ensures tables { OnOk result (AreTables gens.now tables.new.items) }
    ensures one { OnOk result (standard_at tables.new.items 0 ≡ [] ∷ []) }
{
    let x = next_degree(alloc, gens, tables.as_slice())?;
    let width = x.left.len();
    let kernel = relation(alloc, width, from)?;
    let forms = x.forms.as_slice();
    let table = finish(
        alloc,
        gens,
        tables.as_slice(),
        forms,
        width,
        &x.left,
        &kernel,
    )?;
    tables.push(table)?;
    Ok(())
}

// The tables of degrees 0 to 3.
fn four_degrees(alloc: Global, gens: &Gens) -> Result<Vec<Table>, Memory>
    requires { gens.now ≡ record { prime = 2; degrees = 1 ∷ 1 ∷ [] } }
    ensures count { IfOk result (λ ts. length ts.items ≡ 4) }
    ensures tables { IfOk result (λ ts. AreTables gens.now ts.items) }
{
    let mut tables = low_degrees(alloc, gens)?;
    add_degree(alloc, gens, &mut tables, 0)?;
    add_degree(alloc, gens, &mut tables, 1)?;
    Ok(tables)
}

// Generators, standard monomials of degree 2, and what the one standard monomial of degree 3 is taken in
// their products.
const PRODUCTS: [(usize, usize, u8); 4] = [(0, 0, 1), (0, 1, 1), (1, 0, 1), (1, 1, 0)];

// The first coefficient of generator i times a standard monomial is this.
fn multiplies(
    rt: &impl Abort,
    table: &Table,
    i: usize,
    k: usize,
    coefficient: u8,
) -> Result<(), Fail> {
    assert!(rt; i < table.products.len());
    let rows = &table.products[i];
    assert!(rt; k < rows.rows());
    let row = rows.row(k);
    assert!(rt; row.len() > 0);
    assert_eq!(rt; row.get(0), coefficient);
    Ok(())
}

#[test]
fn quaternion(rt: HostRuntime) -> Result<(), Fail> {
    let gens = generators(rt.alloc())?;
    let tables = four_degrees(rt.alloc(), &gens)?;
    assert_eq!(rt; tables[1].standard.len(), 2);
    assert_eq!(rt; tables[2].standard.len(), 2);
    assert_eq!(rt; tables[3].standard.len(), 1);
    for (i, k, coefficient) in PRODUCTS {
        multiplies(&rt, &tables[3], i, k, coefficient)?;
    }
    Ok(())
}

#[test]
fn nothing_is_left_in_degree_four(rt: HostRuntime) -> Result<(), Fail> {
    let gens = generators(rt.alloc())?;
    let tables = four_degrees(rt.alloc(), &gens)?;
    let x = next_degree(rt.alloc(), &gens, tables.as_slice())?;
    assert_eq!(rt;
        (x.candidates.len(), x.left.len(), x.forms.len()),
        (0, 0, 2)
    );
    Ok(())
}
