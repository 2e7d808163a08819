ghost use Rattle.std.specs.Prelude.{◌≡◌, ◌≤◌, IfErr, IfOk, None, Some, true};
ghost use Rattle.std.specs.List.{list_all};
ghost use Rattle.coho_words.specs.Words.{IsPlace, IsWithin, asked, command, file_and_degree, file_and_place};
ghost use Rattle.coho_words.specs.Words.{is_path, plain_command, sample_number, texts};
ghost use Rattle.coho_words.specs.Faults.{IsWordsFault};

use crate::numbers::{read_number, read_place};
use crate::operands::{all_plain, one_operand, place_operands, two_operands};
use crate::ring_words::ring_command;
use crate::{GREATEST_SAMPLE, StageFiles, WordsFault};
use limits::GREATEST_DEGREE;
use std::alloc::Global;

/// What a run is asked for.
#[derive(Drop)]
pub enum Command<'a> {
    /// To describe the group of the file at this path.
    Group(&'a str),
    /// To find the minimal resolution of the group of the file at this path, to this degree.
    Resolve(&'a str, u32),
    /// To find generators and relations of the cohomology ring of the group of the file at this path, through
    /// this degree, with stage files.
    Ring(&'a str, u32, StageFiles<'a>),
    /// To count the records of the stage file at the second path, for the group of the file at the first.
    Check(&'a str, &'a str),
    /// To find the value of the cocycle of a basis class of the group of the file at this path, by its
    /// number, counted from 1, at elements, of which there are as many as the degree of the class.
    Value(&'a str, u16, Vec<u16>),
    /// To make the product of small groups that this number names, and to describe its cohomology ring.
    Sample(u32),
}

// The two words after the command's name, a file and a degree.
fn file_and_degree<'a>(alloc: Global, words: &'a [String]) -> Result<(&'a str, u32), WordsFault>
    requires { list_all is_path (texts words.now) ≡ true }
    ensures found { IfOk result (λ found. file_and_degree (texts words.now) ≡ Some (found.0.now, found.1)) }
    ensures range { IfOk result (λ found. (1 ≤ found.1) × (found.1 ≤ GREATEST_DEGREE)) }
    ensures refused { IfErr result (IsWordsFault (file_and_degree (texts words.now) ≡ None)) }
{
    let (path, degree) = two_operands(alloc, words)?;
    match read_number(1, GREATEST_DEGREE, degree) {
        Some(degree) => Ok((path, degree)),
        None => Err(WordsFault::Refused),
    }
}

// The words after the command's name: a file, the degree and the number of a class, and as many elements as
// the degree.
fn file_and_place<'a>(
    alloc: Global,
    words: &'a [String],
) -> Result<(&'a str, u16, Vec<u16>), WordsFault>
    requires { list_all is_path (texts words.now) ≡ true }
    ensures found { IfOk result
        (λ found. file_and_place (texts words.now) ≡ Some (found.0.now, found.1, found.2.items)) }
    ensures within { IfOk result (λ found. IsPlace found.1 found.2.items) }
    ensures refused { IfErr result (IsWordsFault (file_and_place (texts words.now) ≡ None)) }
{
    let found = place_operands(alloc, words)?;
    let (class, elements) = read_place(alloc, found.degree, found.class, &found.elements)?;
    Ok((found.file, class, elements))
}

// The number that names a product, by the one word after the command's name.
fn sample_number<'a>(alloc: Global, words: &'a [String]) -> Result<u32, WordsFault>
    requires { list_all is_path (texts words.now) ≡ true }
    ensures found { IfOk result (λ k. sample_number (texts words.now) ≡ Some k) }
    ensures range { IfOk result (λ k. k ≤ GREATEST_SAMPLE) }
    ensures refused { IfErr result (IsWordsFault (sample_number (texts words.now) ≡ None)) }
{
    let word = one_operand(alloc, words)?;
    match read_number(0, GREATEST_SAMPLE, word) {
        Some(k) => Ok(k),
        None => Err(WordsFault::Refused),
    }
}

// The command of words whose command has no options.
fn plain_command<'a>(alloc: Global, words: &'a [String]) -> Result<Command<'a>, WordsFault>
    ensures command { IfOk result (λ found. plain_command (texts words.now) ≡ Some (asked found)) }
    ensures within { IfOk result (λ found. IsWithin (asked found)) }
    ensures refused { IfErr result (IsWordsFault (plain_command (texts words.now) ≡ None)) }
{
    if !all_plain(words) {
        return Err(WordsFault::Refused);
    }
    match words {
        [name, ..] if name.as_str() == "group" => Ok(Command::Group(one_operand(alloc, words)?)),
        [name, ..] if name.as_str() == "resolve" => {
            let (path, degree) = file_and_degree(alloc, words)?;
            Ok(Command::Resolve(path, degree))
        }
        [name, ..] if name.as_str() == "check" => {
            let (path, stages) = two_operands(alloc, words)?;
            Ok(Command::Check(path, stages))
        }
        [name, ..] if name.as_str() == "value" => {
            let (path, class, elements) = file_and_place(alloc, words)?;
            Ok(Command::Value(path, class, elements))
        }
        [name, ..] if name.as_str() == "sample" => {
            Ok(Command::Sample(sample_number(alloc, words)?))
        }
        _ => Err(WordsFault::Refused),
    }
}

/// The command of the words.
pub fn read_words<'a>(alloc: Global, words: &'a [String]) -> Result<Command<'a>, WordsFault>
    ensures command { IfOk result (λ found. command (texts words.now) ≡ Some (asked found)) }
    ensures within { IfOk result (λ found. IsWithin (asked found)) }
    ensures refused { IfErr result (IsWordsFault (command (texts words.now) ≡ None)) }
{
    match words {
        [name, rest @ ..] if name.as_str() == "ring" => match ring_command(rest) {
            Some(command) => Ok(command),
            None => Err(WordsFault::Refused),
        },
        _ => plain_command(alloc, words),
    }
}
