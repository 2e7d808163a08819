//! The class map of a p-group, which sends a class to its cocycle, is linear. That it gives cocycles, a
//! coboundary only for 0, and each cocycle up to coboundaries exactly once is stated in `group_cocycles`.

ghost use Rattle.bar_eval.specs.ClassMap.{IsLinear};
ghost use Rattle.p_groups.specs.PGroups.{PGroup};
ghost use Rattle.std.specs.Prelude.{ℕ};

/// The class map is linear in each degree.
pub fn class_map_law()
    ensures { (G : PGroup) (d : ℕ) → IsLinear G d }
{}
