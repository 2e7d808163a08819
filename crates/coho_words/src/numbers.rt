//! Numbers among the words; those of `value` are its degree, the number of its class, and its elements.

ghost use Rattle.std.specs.Prelude.{◌≡◌, ◌<◌, ◌≤◌, ◌^◌, IfErr, IfOk, IfSome, None, Some, length};
ghost use Rattle.pc_text.specs.Numerals.{numeral};
ghost use Rattle.coho_words.specs.Faults.{IsWordsFault};
ghost use Rattle.coho_words.specs.Words.{IsPlace, elements_of, numbers, place, spelled};

use crate::WordsFault;
use pc_text::numeral;
use std::alloc::Global;

/// The greatest number that a word may stand for: that of a class or an element of `value`.
pub const GREATEST_NUMBER: u32 = 65_535;

/// The greatest degree in which `value` is answered.
pub const MOST_ELEMENTS: u32 = 8;

/// The greatest number that names a product.
pub const GREATEST_SAMPLE: u32 = 999;

/// The number from `low` to `high` that a word is the numeral of.
pub fn read_number(low: u32, high: u32, word: &str) -> Option<u32>
    requires { high < 2 ^ 16 }
    ensures numeral { result ≡ numeral low high word.now }
    ensures range { IfSome result (λ n. (low ≤ n) × (n ≤ high)) }
{
    numeral(low, high, word.as_bytes())
}

// The numbers that the words are the numerals of.
fn read_numbers(alloc: Global, words: &[&str]) -> Result<Vec<u16>, WordsFault>
    ensures found { IfOk result (λ ns. numbers (spelled words.now) ≡ Some ns.items) }
    ensures refused { IfErr result (IsWordsFault (numbers (spelled words.now) ≡ None)) }
{
    let mut found = Vec::new(alloc);
    for word in words {
        match read_number(0, GREATEST_NUMBER, word) {
            Some(number) => found.push(number as u16)?,
            None => return Err(WordsFault::Refused),
        }
    }
    Ok(found)
}

// The elements of the words, where there are as many as the degree.
fn read_elements(alloc: Global, degree: u32, words: &[&str]) -> Result<Vec<u16>, WordsFault>
    ensures found { IfOk result (λ es. elements_of degree (spelled words.now) ≡ Some es.items) }
    ensures count { IfOk result (λ es. length es.items ≡ degree) }
    ensures refused { IfErr result (IsWordsFault (elements_of degree (spelled words.now) ≡ None)) }
{
    let elements = read_numbers(alloc, words)?;
    if elements.len() as u64 != u64::from(degree) {
        return Err(WordsFault::Refused);
    }
    Ok(elements)
}

/// The number of a class, and as many elements as its degree.
pub fn read_place(
    alloc: Global,
    degree: &str,
    class: &str,
    elements: &[&str],
) -> Result<(u16, Vec<u16>), WordsFault>
    ensures found { IfOk result
        (λ found. place degree.now class.now (spelled elements.now) ≡ Some (found.0, found.1.items)) }
    ensures within { IfOk result (λ found. IsPlace found.0 found.1.items) }
    ensures refused { IfErr result (IsWordsFault (place degree.now class.now (spelled elements.now) ≡ None)) }
{
    let (Some(degree), Some(class)) = (
        read_number(1, MOST_ELEMENTS, degree),
        read_number(1, GREATEST_NUMBER, class),
    ) else {
        return Err(WordsFault::Refused);
    };
    Ok((class as u16, read_elements(alloc, degree, elements)?))
}
