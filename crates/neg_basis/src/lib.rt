//! Negative standard bases (Green, LNM 1828) of the submodules that vectors generate under linear maps.
#![tactic(auto)]

mod basis;
mod found;
mod images;
mod ops;
mod origin;
mod steps;
mod work;

pub use basis::NegBasis;
pub use ops::Ops;
pub use origin::Origin;
