//! The limits of the calculator, each stated here alone: code, definitions, fault lines and tests read them
//! from here.
#![tactic(auto)]

/// The most bytes that a text has.
pub const LONGEST_TEXT: usize = 65_536;

/// The most generators of a presentation that is read from a text.
pub const MOST_GENERATORS: u32 = 32;

/// The greatest order of a group.
pub const GREATEST_ORDER: u64 = 128;

/// The greatest dimension over F_p of the free module of a stage.
pub const GREATEST_DIMENSION: u64 = 4096;

/// The greatest degree of a class, a polynomial or a stage.
pub const GREATEST_DEGREE: u32 = 24;

/// The greatest count: one that is greater is given as this number.
pub const GREATEST_COUNT: u64 = u64::MAX;
