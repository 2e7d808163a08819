//! Substitution of polynomials for generators.

ghost use Rattle.std.specs.Prelude.{◌≡◌, ◌+◌, ◌*◌, ◌≤◌, [], ◌∷◌, IfOk, All, length, map};
ghost use Rattle.limits.specs.declared.TheConstants.{GREATEST_DEGREE};
ghost use Rattle.graded_polynomials.specs.Monomials.{degree};
ghost use Rattle.graded_algebra.specs.Algebras.{powers, evaluate};
ghost use Rattle.gc_poly.specs.Generators.{greatest};
ghost use Rattle.gc_poly.specs.Polynomials.{IsOverGenerators, IsMonomialOf, IsSumOf};
ghost use Rattle.gc_poly.specs.Substitution.{polynomials, standing, substituted, AreImages};

use crate::sums::add_multiple;
use crate::{Gens, Mono, Poly, Polys, mul};
use group_table::Memory;
use std::alloc::Global;

// f times a power of g.
fn times_power(alloc: Global, gens: &Gens, f: Poly, g: &Poly, exponent: u8) -> Result<Poly, Memory>
    requires left { IsOverGenerators gens.now f }
    requires right { IsOverGenerators gens.now g.now }
    requires degrees { f.degree + g.now.degree * exponent ≤ GREATEST_DEGREE }
    ensures { IfOk result (IsSumOf gens.now (f.degree + g.now.degree * exponent)
        (powers (polynomials (greatest gens.now) gens.now.degrees) 0 f.terms
        (record { degree = g.now.degree; class = g.now.terms }) exponent)) }
{
    let mut out = f;
    for _k in 0..exponent {
        out = mul(alloc, gens, &out, g)?;
    }
    Ok(out)
}

// The value of a monomial where the images stand for the generators.
fn image_of(alloc: Global, to: &Gens, m: &Mono, images: &Polys) -> Result<Poly, Memory>
    requires over { All (IsOverGenerators to.now) images.now }
    requires within { length m.now ≤ length images.now }
    requires small { degree (map (λ f. f.degree) images.now) m.now ≤ GREATEST_DEGREE }
    ensures { IfOk result (IsSumOf to.now (degree (map (λ f. f.degree) images.now) m.now)
        (evaluate (polynomials (greatest to.now) to.now.degrees) (standing images.now) m.now)) }
{
    let p = to.modulus();
    prove!(p > 1);
    let mut out = Poly::constant(alloc, to, 1)?;
    for i in 0..m.len() {
        out = times_power(alloc, to, out, images.get(i), m.exponent(i))?;
    }
    Ok(out)
}

/// The polynomial f, of degree at most `GREATEST_DEGREE`, with each generator of `from` replaced by its
/// image, a polynomial over `to` of its degree.
pub fn subst(
    alloc: Global,
    from: &Gens,
    to: &Gens,
    f: &Poly,
    images: &Polys,
) -> Result<Poly, Memory>
    requires primes { from.now.prime ≡ to.now.prime }
    requires over { IsOverGenerators from.now f.now }
    requires degree { f.now.degree ≤ GREATEST_DEGREE }
    requires images { AreImages from.now to.now images.now }
    ensures { IfOk result (IsSumOf to.now f.now.degree (substituted to.now images.now f.now.terms)) }
{
    let p = from.modulus();
    prove!(p <= 7);
    let mut out = Poly::zero(alloc, f.degree());
    for i in 0..f.terms() {
        let image = image_of(alloc, to, f.mono(i), images)?;
        add_multiple(to, &mut out, f.coefficient(i), &image)?;
    }
    Ok(out)
}
