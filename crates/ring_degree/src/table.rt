//! What is kept of a degree of a ring.

use fp_rows::Matrix;
use gc_poly::Monos;

/// The standard monomials of a degree, descending, and for each generator of at most that degree the products
/// with the standard monomials of the degree that is left: a row over the standard monomials for each.
#[derive(Drop)]
pub struct Table {
    /// The standard monomials.
    pub standard: Monos,
    /// A matrix for each generator.
    pub products: Vec<Matrix>,
}
