//! Whether a set of elements comes first among its conjugates.

ghost use Rattle.std.specs.Prelude.{◌≡◌, ◌<◌, ◌↔◌, ◌⊎◌, IsTrue, List, ℕ, not};
ghost use Rattle.group_table.specs.Tables.{order};
ghost use Rattle.elementary_subgroups.specs.Cliques.{IsFull};
ghost use Rattle.elementary_subgroups.specs.Sets.{IsBefore};
ghost use Rattle.elementary_subgroups.specs.Subgroups.{IsConjugateBy, IsLeast};

use crate::elements::has;
use group_table::Group;

/// Whether no conjugate has a list that comes before.
pub(crate) fn is_least(g: &Group, m: &[u16]) -> bool
    requires { IsFull g.now m.now }
    ensures { IsTrue result ↔ IsLeast g.now m.now }
{
    for by in 0..g.order() {
        if conjugate_comes_before(g, m, by) {
            return false;
        }
    }
    true
}

// Whether the set is its own conjugate, which saves most of the work where it is normal.
fn keeps(g: &Group, m: &[u16], by: u16) -> bool
    requires full { IsFull g.now m.now }
    requires element { by < order g.now }
    ensures { IsTrue result → (l : List ℕ) → IsConjugateBy g.now by m.now l → m.now ≡ l }
{
    let _ = g.order();
    let inverse = g.inv(by);
    for x in m {
        if !has(m, g.mul(inverse, g.mul(*x, by))) {
            return false;
        }
    }
    true
}

// Whether the conjugate by an element comes before the set: at the first number that only one of them has, it
// is the conjugate's.
fn conjugate_comes_before(g: &Group, m: &[u16], by: u16) -> bool
    requires full { IsFull g.now m.now }
    requires element { by < order g.now }
    ensures before { IsTrue result → (l : List ℕ) → IsConjugateBy g.now by m.now l → IsBefore l m.now }
    ensures not_before { IsTrue (not result)
        → (l : List ℕ) → IsConjugateBy g.now by m.now l → (m.now ≡ l) ⊎ IsBefore m.now l }
{
    if keeps(g, m, by) {
        return false;
    }
    let inverse = g.inv(by);
    for x in 0..g.order() {
        let here = has(m, x);
        let there = has(m, g.mul(g.mul(by, x), inverse));
        if here != there {
            return there;
        }
    }
    false
}
