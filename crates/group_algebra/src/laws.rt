//! Laws of the group algebra.

ghost use Rattle.p_groups.specs.PGroups.{PGroup};
ghost use Rattle.group_algebra.specs.Inverse.{AreInverse};

/// The maps between coefficients and layer coordinates are inverse to each other: what `Algebra::to_layers`
/// wrote of a row of coefficients `Algebra::from_layers` turns back into that row, and the other way round.
pub fn inverse_law()
    ensures { (G : PGroup) → AreInverse G }
{}
