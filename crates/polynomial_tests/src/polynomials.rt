//! Values worked out by hand.

ghost use Rattle.std.specs.Prelude.{◌≡◌, ◌≤◌, [], ◌∷◌, length, IfOk};
ghost use Rattle.limits.specs.declared.TheConstants.{GREATEST_DEGREE};
ghost use Rattle.group_table.specs.Prime.{prime_value};
ghost use Rattle.gc_poly.specs.Polynomials.{IsOverGenerators};

use gc_poly::{
    Gens, Mono, Poly, Polys, add, count_monomials, monomials, mul, power_bytes, sub, subst,
    write_text,
};
use group_table::{Memory, Prime};
use std::alloc::Global;
use std::process::Abort;
use std::test::Fail;

// Generators of degrees 1, 1 and 2.
fn small_gens(alloc: Global, p: Prime) -> Result<Gens, Memory>
    ensures { IfOk result (λ gens. gens.prime ≡ prime_value p) }
{
    let mut gens = Gens::new(alloc, p);
    gens.push(1)?;
    gens.push(1)?;
    gens.push(2)?;
    Ok(gens)
}

// Monomial i of degree d as a polynomial, or 0 where there are fewer.
fn monomial(alloc: Global, gens: &Gens, d: u32, i: usize) -> Result<Poly, Memory>
    requires { d ≤ GREATEST_DEGREE }
    ensures over { IfOk result (IsOverGenerators gens.now) }
    ensures degree { IfOk result (λ f. f.degree ≡ d) }
{
    let _p = gens.prime();
    let list = monomials(alloc, gens, d)?;
    let mut f = Poly::zero(alloc, d);
    if i < list.len() {
        f.add_term(gens, 1, list.get(i))?;
    }
    Ok(f)
}

fn text_of(alloc: Global, gens: &Gens, f: &Poly) -> Result<String, Fail>
    requires { IsOverGenerators gens.now f.now }
{
    let mut text = Vec::new(alloc);
    write_text(gens, f, &mut text)?;
    Ok(String::from_utf8(text)?)
}

// The text of a polynomial is this one.
fn shows(rt: &impl Abort, alloc: Global, gens: &Gens, f: &Poly, text: &str) -> Result<(), Fail>
    requires { IsOverGenerators gens.now f.now }
{
    let shown = text_of(alloc, gens, f)?;
    assert_eq!(rt; shown.as_str(), text);
    Ok(())
}

// The monomials of degree 2 in generators of degrees 1, 1 and 2, by their places, and 0 past the last.
const MONOMIALS: [(Prime, usize, &str); 8] = [
    (Prime::P2, 0, "x_1_1^2"),
    (Prime::P2, 1, "x_1_1*x_1_2"),
    (Prime::P2, 2, "x_1_2^2"),
    (Prime::P2, 3, "x_2_1"),
    (Prime::P3, 0, "x_1_1*x_1_2"),
    (Prime::P3, 1, "x_2_1"),
    (Prime::P3, 2, "0"),
    (Prime::P3, 3, "0"),
];

fn stands(rt: &impl Abort, alloc: Global, case: &(Prime, usize, &str)) -> Result<(), Fail> {
    let gens = small_gens(alloc, case.0)?;
    let f = monomial(alloc, &gens, 2, case.1)?;
    shows(rt, alloc, &gens, &f, case.2)
}

#[test]
fn monomials_of_degree_two(rt: HostRuntime) -> Result<(), Fail> {
    for case in &MONOMIALS {
        stands(&rt, rt.alloc(), case)?;
    }
    Ok(())
}

// Two generators of degree 1 over three elements: their product, sum and difference.
const PRODUCTS_AND_SUMS: [(usize, usize, &str, &str, &str); 3] = [
    (1, 0, "2*x_1_1*x_1_2", "x_1_1+x_1_2", "2*x_1_1+x_1_2"),
    (0, 1, "x_1_1*x_1_2", "x_1_1+x_1_2", "x_1_1+2*x_1_2"),
    (0, 0, "0", "2*x_1_1", "0"),
];

fn computes(
    rt: &impl Abort,
    alloc: Global,
    gens: &Gens,
    case: &(usize, usize, &str, &str, &str),
) -> Result<(), Fail> {
    let a = monomial(alloc, gens, 1, case.0)?;
    let b = monomial(alloc, gens, 1, case.1)?;
    shows(rt, alloc, gens, &mul(alloc, gens, &a, &b)?, case.2)?;
    shows(rt, alloc, gens, &add(alloc, gens, &a, &b)?, case.3)?;
    shows(rt, alloc, gens, &sub(alloc, gens, &a, &b)?, case.4)
}

#[test]
fn products_and_sums(rt: HostRuntime) -> Result<(), Fail> {
    let gens = small_gens(rt.alloc(), Prime::P3)?;
    for case in &PRODUCTS_AND_SUMS {
        computes(&rt, rt.alloc(), &gens, case)?;
    }
    Ok(())
}

// Four generators of degree 1 and two of degree 4, over two elements.
fn six_gens(alloc: Global) -> Result<Gens, Memory>
    ensures { IfOk result (λ gens. length gens.degrees ≡ 6) }
{
    let mut gens = Gens::new(alloc, Prime::P2);
    gens.push(1)?;
    gens.push(1)?;
    gens.push(1)?;
    gens.push(1)?;
    gens.push(4)?;
    gens.push(4)?;
    Ok(gens)
}

#[test]
fn numbers_of_monomials(rt: HostRuntime) -> Result<(), Fail> {
    let gens = six_gens(rt.alloc())?;
    assert_eq!(rt; count_monomials(&gens, 19), 4844);
    assert_eq!(rt; (gens.number(3), gens.number(5)), (4, 2));
    Ok(())
}

#[test]
fn places_of_monomials(rt: HostRuntime) -> Result<(), Fail> {
    let gens = small_gens(rt.alloc(), Prime::P2)?;
    let list = monomials(rt.alloc(), &gens, 2)?;
    assert_eq!(rt; list.len(), 4);
    let square = Mono::of(rt.alloc(), &[0, 2, 0])?;
    assert_eq!(rt; list.position(&square), Some(2));
    let absent = Mono::of(rt.alloc(), &[1])?;
    assert_eq!(rt; list.position(&absent), None);
    Ok(())
}

#[test]
fn exponents_of_monomials(rt: HostRuntime) -> Result<(), Fail> {
    let square = Mono::of(rt.alloc(), &[0, 2, 0])?;
    assert_eq!(rt;
        (square.len(), square.exponent(1), square.exponent(7)),
        (2, 2, 0)
    );
    let x = Mono::of(rt.alloc(), &[1])?;
    let product = x.joined(rt.alloc(), &x)?;
    assert_eq!(rt; (product.len(), product.exponent(0)), (1, 2));
    Ok(())
}

// The one generator of degree 1.
fn one_gen(alloc: Global, p: Prime) -> Result<Gens, Memory>
    ensures { IfOk result (λ gens. gens ≡ record { prime = prime_value p; degrees = 1 ∷ [] }) }
{
    let mut gens = Gens::new(alloc, p);
    gens.push(1)?;
    Ok(gens)
}

// The list of one polynomial.
fn only(alloc: Global, f: Poly) -> Result<Polys, Memory>
    ensures { IfOk result (λ fs. fs ≡ f ∷ []) }
{
    let mut list = Polys::new(alloc);
    list.push(f)?;
    Ok(list)
}

// The sum of the generators of degree 1.
fn sum_of_two(alloc: Global, gens: &Gens) -> Result<Poly, Memory>
    ensures over { IfOk result (IsOverGenerators gens.now) }
    ensures degree { IfOk result (λ f. f.degree ≡ 1) }
{
    let x = monomial(alloc, gens, 1, 0)?;
    let y = monomial(alloc, gens, 1, 1)?;
    add(alloc, gens, &x, &y)
}

#[test]
fn substitutions(rt: HostRuntime) -> Result<(), Fail> {
    let from = one_gen(rt.alloc(), Prime::P2)?;
    let to = small_gens(rt.alloc(), Prime::P2)?;
    let square = monomial(rt.alloc(), &from, 2, 0)?;
    let images = only(rt.alloc(), sum_of_two(rt.alloc(), &to)?)?;
    assert_eq!(rt; images.len(), 1);
    let image = subst(rt.alloc(), &from, &to, &square, &images)?;
    shows(&rt, rt.alloc(), &to, &image, "x_1_1^2+x_1_2^2")
}

#[test]
fn generators_and_constants(rt: HostRuntime) -> Result<(), Fail> {
    let gens = small_gens(rt.alloc(), Prime::P3)?;
    assert_eq!(rt; (gens.len(), gens.modulus()), (3, 3));
    assert!(rt; gens.is_exterior(1) && !gens.is_exterior(2));
    let name = power_bytes(rt.alloc(), &gens, 1, 2)?;
    assert_eq!(rt; name.as_slice(), b"x_1_2^2".as_slice());
    let two = Poly::constant(rt.alloc(), &gens, 2)?;
    shows(&rt, rt.alloc(), &gens, &two, "2")
}

// The second monomial of degree 2 over three elements less the first.
fn two_terms(alloc: Global, gens: &Gens) -> Result<Poly, Memory> {
    let first = monomial(alloc, gens, 2, 0)?;
    let second = monomial(alloc, gens, 2, 1)?;
    sub(alloc, gens, &second, &first)
}

#[test]
fn terms_of_a_polynomial(rt: HostRuntime) -> Result<(), Fail> {
    let gens = small_gens(rt.alloc(), Prime::P3)?;
    let f = two_terms(rt.alloc(), &gens)?;
    assert_eq!(rt; f.terms(), 2);
    assert_eq!(rt; f.coefficient(0), 2);
    let product = Mono::of(rt.alloc(), &[1, 1])?;
    assert!(rt; product.is_greater(f.mono(1)));
    assert!(rt; !f.mono(1).is_greater(&product));
    match f.leading() {
        Some(m) => assert!(rt; *m == product),
        None => assert!(rt; false, "0"),
    }
    Ok(())
}

#[test]
fn copies_of_monomials(rt: HostRuntime) -> Result<(), Fail> {
    let product = Mono::of(rt.alloc(), &[1, 1])?;
    let copy = product.try_clone(rt.alloc())?;
    assert!(rt; copy == product);
    Ok(())
}
