//! The search for the maximal sets of commuting elements of order 1 or p, by those chosen, those free and
//! those barred (Bron and Kerbosch, Finding all cliques of an undirected graph, 1973). These sets are the
//! maximal elementary abelian subgroups.

ghost use Rattle.std.specs.Prelude.{◌≡◌, ◌++◌, ◌↔◌, IfOk, IsTrue, List, ℕ};
ghost use Rattle.elementary_subgroups.specs.Cliques.{AreElements, IsFull};
ghost use Rattle.elementary_subgroups.specs.Subgroups.{IsMaximalElementaryList};
ghost use Rattle.subgroup_list.specs.Search.{IsBlocked, IsFound, IsKept, IsPlace, lists};

use crate::classes::is_least;
use crate::elements::{commutes_with_all, commuting, pushed, torsion_elements};
use group_table::Group;
use std::alloc::{AllocError, Global};

/// The sorted lists of the maximal elementary abelian subgroups that are least in their class, in ascending
/// order.
pub(crate) fn maximal_lists(alloc: Global, g: &Group) -> Result<Vec<Vec<u16>>, AllocError>
    ensures { IfOk result (λ v. IsMaximalElementaryList g.now (lists v.items)) }
{
    let _ = g.order();
    let torsion = torsion_elements(alloc, g)?;
    let mut found = Vec::new(alloc);
    explore(alloc, g, &[], &torsion, &[], &mut found)?;
    Ok(found)
}

// Adds the full sets, least in their class, that consist of the chosen elements and some free ones.
fn explore(
    alloc: Global,
    g: &Group,
    chosen: &[u16],
    free: &[u16],
    barred: &[u16],
    found: &mut Vec<Vec<u16>>,
) -> Result<(), AllocError>
    requires place { IsPlace g.now chosen.now free.now barred.now }
    ensures { IfOk result (λ _. (ms : List (List ℕ))
        × (lists found.new.items ≡ lists found.old.items ++ ms) × IsFound g.now chosen.now free.now ms) }
{
    if is_blocked(g, free, barred) {
        return Ok(());
    }
    if free.is_empty() {
        keep_if_least(alloc, g, chosen, found)?;
        return Ok(());
    }
    let x = free[0];
    let rest = &free[1..];
    let with_x = pushed(alloc, chosen, x)?;
    let free_with = commuting(alloc, g, x, rest)?;
    let barred_with = commuting(alloc, g, x, barred)?;
    explore(alloc, g, &with_x, &free_with, &barred_with, found)?;
    let barred_without = pushed(alloc, barred, x)?;
    explore(alloc, g, chosen, rest, &barred_without, found)?;
    Ok(())
}

// Whether some barred element commutes with all free ones: then no set of the search is full.
fn is_blocked(g: &Group, free: &[u16], barred: &[u16]) -> bool
    requires free { AreElements g.now free.now }
    requires barred { AreElements g.now barred.now }
    ensures { IsTrue result ↔ IsBlocked g.now free.now barred.now }
{
    for x in barred {
        if commutes_with_all(g, *x, free) {
            return true;
        }
    }
    false
}

// Adds the full set, where it is least in its class.
fn keep_if_least(
    alloc: Global,
    g: &Group,
    m: &[u16],
    found: &mut Vec<Vec<u16>>,
) -> Result<(), AllocError>
    requires { IsFull g.now m.now }
    ensures { IfOk result (λ _. (ms : List (List ℕ))
        × (lists found.new.items ≡ lists found.old.items ++ ms) × IsKept g.now m.now ms) }
{
    if is_least(g, m) {
        found.push(Vec::from_slice(alloc, m)?)?;
    }
    Ok(())
}
