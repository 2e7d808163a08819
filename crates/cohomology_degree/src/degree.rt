//! What a ring keeps of a degree.

use fp_rows::Matrix;
use gc_poly::Monos;

/// A descending list of monomials of one degree, and for each the row of the class to which it evaluates.
#[derive(Drop)]
pub struct Valued {
    /// The monomials.
    pub monomials: Monos,
    /// The rows of their classes, over the dual basis.
    pub values: Matrix,
}

/// The monomials of a degree that lead in no consequence of the relations before, the standard ones among
/// them, and for each class of the dual basis the row over the former of its normal form.
#[derive(Drop)]
pub struct Degree {
    /// The monomials that lead in no consequence of the relations before.
    pub left: Valued,
    /// The standard ones among them.
    pub standard: Valued,
    /// A row over the former for each class of the dual basis.
    pub preimages: Matrix,
}
