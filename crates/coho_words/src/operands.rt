//! The words after a command's name, read by clap.

ghost use Rattle.std.specs.Prelude.{◌≡◌, ◌⊎◌, IfErr, IfOk, IsSome, None, Some, option_map, true};
ghost use Rattle.std.specs.List.{list_all};
ghost use Rattle.clap.specs.Words.{first_value, found_of, kind_of, matched_of, raw_values};
ghost use Rattle.coho_words.specs.Operands.{HoldsPlace};
ghost use Rattle.coho_words.specs.Faults.{IsWordsFault};
ghost use Rattle.coho_words.specs.Words.{is_path, one_operand, place_operands, spelled, texts, two_operands};

use crate::WordsFault;
use clap::error::ErrorKind;
use clap::{Arg, ArgMatches, Error};
use std::alloc::Global;

/// The word is not empty, and begins with no dash.
pub fn is_plain(word: &str) -> bool
    ensures { result ≡ is_path word.now }
{
    match word.as_bytes() {
        [] => false,
        [first, ..] => *first != b'-',
    }
}

/// Whether no word is empty or begins with a dash.
pub fn all_plain(words: &[String]) -> bool
    ensures { result ≡ list_all is_path (texts words.now) }
{
    words.iter().all(|word| is_plain(word.as_str()))
}

// The word that was given for an argument.
fn given<'a>(matches: &ArgMatches<'a>, id: &str) -> &'a str
    requires { IsSome (first_value (found_of matches.now) id.now) }
    ensures { first_value (found_of matches.now) id.now ≡ Some result.now }
{
    match matches.get_str(id) {
        Some(word) => word,
        None => unreachable!(),
    }
}

/// The one word after the command's name.
pub fn one_operand<'a>(alloc: Global, words: &'a [String]) -> Result<&'a str, Error>
    requires { list_all is_path (texts words.now) ≡ true }
    ensures found { IfOk result (λ file. one_operand (texts words.now) ≡ Some file.now) }
    ensures refused { IfErr result
        (λ e. (kind_of e ≡ ErrorKind.OutOfMemory) ⊎ (one_operand (texts words.now) ≡ None)) }
{
    let file = Arg::new(alloc, "file").required(true);
    let command = clap::Command::new(alloc, "coho")
        .disable_help_flag(true)
        .arg(file)?;
    let matches = command.try_get_matches_from(words)?;
    Ok(given(&matches, "file"))
}

/// The two words after the command's name.
pub fn two_operands<'a>(alloc: Global, words: &'a [String]) -> Result<(&'a str, &'a str), Error>
    requires { list_all is_path (texts words.now) ≡ true }
    ensures found { IfOk result
        (λ found. two_operands (texts words.now) ≡ Some (found.0.now, found.1.now)) }
    ensures refused { IfErr result
        (λ e. (kind_of e ≡ ErrorKind.OutOfMemory) ⊎ (two_operands (texts words.now) ≡ None)) }
{
    let file = Arg::new(alloc, "file").required(true);
    let degree = Arg::new(alloc, "degree").required(true);
    let command = clap::Command::new(alloc, "coho")
        .disable_help_flag(true)
        .arg(file)?
        .arg(degree)?;
    let matches = command.try_get_matches_from(words)?;
    Ok((given(&matches, "file"), given(&matches, "degree")))
}

/// The words of `value` after its name: a file, the degree and the number of a class, and elements.
#[derive(Drop)]
pub struct PlaceWords<'a> {
    pub file: &'a str,
    pub degree: &'a str,
    pub class: &'a str,
    pub elements: Vec<&'a str>,
}

// The words that were given for an argument.
fn all_given<'m, 'a>(matches: &'m ArgMatches<'a>, id: &str) -> &'m [&'a str]
    requires { IsSome (matched_of (found_of matches.now) id.now) }
    ensures { option_map raw_values (matched_of (found_of matches.now) id.now) ≡ Some (spelled result.now) }
{
    match matches.get_strs(id) {
        Some(words) => words,
        None => unreachable!(),
    }
}

// The matches of the words of `value` after its name.
fn place_matches<'a>(alloc: Global, words: &'a [String]) -> Result<ArgMatches<'a>, Error>
    requires { list_all is_path (texts words.now) ≡ true }
    ensures found { IfOk result (HoldsPlace (texts words.now)) }
    ensures refused { IfErr result
        (λ e. (kind_of e ≡ ErrorKind.OutOfMemory) ⊎ (place_operands (texts words.now) ≡ None)) }
{
    let file = Arg::new(alloc, "file").required(true);
    let degree = Arg::new(alloc, "degree").required(true);
    let class = Arg::new(alloc, "class").required(true);
    let element = Arg::new(alloc, "element").required(true).num_args(1..);
    let command = clap::Command::new(alloc, "coho")
        .disable_help_flag(true)
        .arg(file)?
        .arg(degree)?
        .arg(class)?
        .arg(element)?;
    command.try_get_matches_from(words)
}

/// The words of `value` after its name.
pub fn place_operands<'a>(alloc: Global, words: &'a [String]) -> Result<PlaceWords<'a>, WordsFault>
    requires { list_all is_path (texts words.now) ≡ true }
    ensures found { IfOk result (λ found. place_operands (texts words.now)
        ≡ Some (found.file.now, found.degree.now, found.class.now, spelled found.elements.items)) }
    ensures refused { IfErr result (IsWordsFault (place_operands (texts words.now) ≡ None)) }
{
    let matches = place_matches(alloc, words)?;
    Ok(PlaceWords {
        file: given(&matches, "file"),
        degree: given(&matches, "degree"),
        class: given(&matches, "class"),
        elements: Vec::from_slice(alloc, all_given(&matches, "element"))?,
    })
}
