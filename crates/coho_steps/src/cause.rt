ghost use Rattle.std.specs.Prelude.{◌≡◌, ◌++◌, ◌∷◌, [], codes, IfOk, string_bytes};
ghost use Rattle.coho_steps.specs.Refusals.{fault_words, stage_refused, subgroup_refused, test_words};
ghost use Rattle.coho_steps.specs.Stops.{fault_at, refusal_of};

use crate::Status;
use limits::{GREATEST_DIMENSION, GREATEST_ORDER, LONGEST_TEXT};
use pc_group::TestName;
use pc_text::Kind;
use std::alloc::{AllocError, Global};

/// What of a stage file is refused.
#[derive(Clone, Copy, Debug, PartialEq, Eq)]
pub enum FilePart {
    /// One of the first eight bytes.
    Header,
    /// The digest of another presentation.
    Presentation,
    /// The record of this number.
    Record(u32),
}

/// Why a run is refused.
#[derive(Clone, Copy, Debug, PartialEq, Eq)]
pub enum Cause {
    /// The words are not those of a command.
    Words,
    /// The text is longer than `LONGEST_TEXT` bytes.
    Length,
    /// The first fault of the text.
    Text {
        kind: Kind,
        line: u32,
        column: u32,
    },
    /// The order is above `GREATEST_ORDER`.
    Order,
    /// The first false consistency test.
    Inconsistent(TestName),
    /// A stage file is not an honest one.
    StageFile(FilePart),
    /// The free module of the stage of this degree has a dimension above `GREATEST_DIMENSION`.
    Stage {
        degree: u32,
        dimension: u64,
    },
    /// The free module of the stage of this degree of a listed subgroup, counted from 1, has a dimension
    /// above `GREATEST_DIMENSION`.
    SubgroupStage {
        subgroup: u32,
        degree: u32,
        dimension: u64,
    },
    /// This element is not below the order of the group.
    Element {
        element: u16,
        order: u16,
    },
    /// This degree has only so many basis classes, fewer than the number of the one that was asked for.
    Class {
        degree: u32,
        count: usize,
    },
}

impl Cause {
    pub fn status(&self) -> Status
        ensures { result ≡ (refusal_of self.now).status }
    {
        match self {
            Cause::Words => Status::Usage,
            Cause::Length => Status::Limit,
            Cause::Text { .. } => Status::Text,
            Cause::Order => Status::Limit,
            Cause::Inconsistent(_) => Status::Inconsistent,
            Cause::StageFile(_) => Status::Stage,
            Cause::Stage { .. } => Status::Limit,
            Cause::SubgroupStage { .. } => Status::Limit,
            Cause::Element { .. } => Status::Usage,
            Cause::Class { .. } => Status::Usage,
        }
    }

    /// The line on err.
    pub fn line(&self, alloc: Global) -> Result<String, AllocError>
        ensures { IfOk result (λ text. string_bytes text ≡ (refusal_of self.now).line) }
    {
        match *self {
            Cause::Words => {
                String::from_str(alloc, "coho: the words are not those of a command\n")
            }
            Cause::Length => {
                format!(in alloc; "coho: limit: text longer than {LONGEST_TEXT} bytes\n")
            }
            Cause::Text { kind, line, column } => {
                let kind = kind.name();
                format!(in alloc; "coho: text fault at {line}:{column}: {kind}\n")
            }
            Cause::Order => format!(in alloc; "coho: limit: order above {GREATEST_ORDER}\n"),
            Cause::Inconsistent(test) => {
                let test = test_words(alloc, test)?;
                format!(in alloc; "coho: inconsistent: {test}\n")
            }
            Cause::StageFile(part) => {
                let part = part_words(alloc, part)?;
                format!(in alloc; "coho: stage file refused: {part}\n")
            }
            Cause::Stage { degree, dimension } => stage_line(alloc, degree, dimension),
            Cause::SubgroupStage {
                subgroup,
                degree,
                dimension,
            } => subgroup_line(alloc, subgroup, degree, dimension),
            Cause::Element { element, order } => {
                format!(in alloc; "coho: element {element} is not below {order}\n")
            }
            Cause::Class { degree, count } => {
                format!(in alloc; "coho: degree {degree} has only {count} classes\n")
            }
        }
    }
}

// The line of a stage of the group that is too large.
fn stage_line(alloc: Global, degree: u32, dimension: u64) -> Result<String, AllocError>
    ensures { IfOk result (λ text. string_bytes text ≡ (stage_refused degree dimension).line) }
{
    format!(in alloc;
        "coho: limit: stage {degree} of the group has dimension {dimension}, above {GREATEST_DIMENSION}\n"
    )
}

// The line of a stage of a listed subgroup that is too large.
fn subgroup_line(
    alloc: Global,
    subgroup: u32,
    degree: u32,
    dimension: u64,
) -> Result<String, AllocError>
    ensures { IfOk result
        (λ text. string_bytes text ≡ (subgroup_refused subgroup degree dimension).line) }
{
    format!(in alloc;
        "coho: limit: stage {degree} of subgroup {subgroup} has dimension {dimension}, \
            above {GREATEST_DIMENSION}\n"
    )
}

// What of a stage file is refused.
fn part_words(alloc: Global, part: FilePart) -> Result<String, AllocError>
    ensures { IfOk result (λ text. string_bytes text ≡ fault_words (fault_at part)) }
{
    match part {
        FilePart::Header => String::from_str(alloc, "header"),
        FilePart::Presentation => String::from_str(alloc, "presentation"),
        FilePart::Record(number) => format!(in alloc; "record {number}"),
    }
}

// The name of a consistency test and the numbers of its generators.
fn test_words(alloc: Global, test: TestName) -> Result<String, AllocError>
    ensures { IfOk result (λ text. string_bytes text ≡ test_words test) }
{
    match test {
        TestName::Power { i, j } => format!(in alloc; "power {i} {j}"),
        TestName::Swap { i, j, k } => format!(in alloc; "swap {i} {j} {k}"),
        TestName::Fixed { i } => format!(in alloc; "fixed {i}"),
        TestName::Twist { i, j } => format!(in alloc; "twist {i} {j}"),
    }
}
