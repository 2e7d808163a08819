//! Graded commutative polynomials over a prime field, and their text.
#![tactic(auto)]

mod enumeration;
mod gens;
mod mono;
mod monos;
mod poly;
mod polys;
mod products;
mod substitution;
mod sums;
mod term;
mod text;

pub use enumeration::{count_monomials, monomials};
pub use gens::Gens;
pub use mono::Mono;
pub use monos::Monos;
pub use poly::Poly;
pub use polys::Polys;
pub use products::mul;
pub use substitution::subst;
pub use sums::{add, sub};
pub use text::{power_bytes, write_text};
