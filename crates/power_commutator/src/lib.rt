//! Power-commutator presentations of groups of order p^n: definitions, the consistency tests, and the laws
//! that tie them to groups.
//! See Holt, Eick and O'Brien, Handbook of Computational Group Theory, chapter 8, for such presentations and
//! their consistency.
#![tactic(auto)]

ghost use Rattle.std.specs.Prelude.{◌≡◌, ◌<◌, None};
ghost use Rattle.power_commutator.specs.Presentations.{Presentation, IsPresentation, first_fault};
ghost use Rattle.power_commutator.specs.Claims.{GroupClaims, Realisation};

/// A consistency test, named by the generators that it speaks of.
#[derive(Clone, Copy, Debug, PartialEq, Eq)]
pub enum TestName {
    /// α_i(g_j)^p is α_i of the word of g_j^p.
    Power { i: u32, j: u32 },
    /// α_i(g_k) α_i(g_j) is α_i(g_j) α_i(g_k) α_i of the word of [g_k, g_j].
    Swap { i: u32, j: u32, k: u32 },
    /// α_i fixes the word of g_i^p.
    Fixed { i: u32 },
    /// α_i^p is the conjugation by the word of g_i^p, at g_j.
    Twist { i: u32, j: u32 },
}

/// A presentation in which no test is false gives a group of p^n elements in which its relations hold.
pub fn consistent_law()
    ensures { (P : Presentation) → 1 < P.prime → IsPresentation P → first_fault P ≡ None → GroupClaims P }
{}

/// A presentation of which a group of p^n elements is a realisation has no false test.
pub fn realised_law()
    ensures { (P : Presentation) → 1 < P.prime → IsPresentation P → Realisation P → first_fault P ≡ None }
{}

/// A presentation in which no test is false has a realisation, the table of its own group.
pub fn realisation_law()
    ensures { (P : Presentation) → 1 < P.prime → IsPresentation P → first_fault P ≡ None → Realisation P }
{}
