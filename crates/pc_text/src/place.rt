//! Left sides of relations.

/// A left side: the power of a generator, or the commutator of a later and an earlier one.
#[derive(Clone, Copy, Debug, PartialEq, Eq)]
pub enum Place {
    Power(u32),
    Commutator(u32, u32),
}
