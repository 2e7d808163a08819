//! The words of `ring` after its name: a file, a degree, and options in any place.

ghost use Rattle.std.specs.Prelude.{◌≡◌, IfSome, None, Some, option_map};
ghost use Rattle.coho_words.specs.Words.{IsWithin, asked, no_ring_words, path_in, put, ring_command, ring_of};
ghost use Rattle.coho_words.specs.Words.{ring_words_of, saves_over, texts, with_from, with_due, with_operand};
ghost use Rattle.coho_words.specs.Words.{with_save, with_word, with_words};

use crate::Command;
use crate::numbers::read_number;
use crate::operands::is_plain;
use limits::GREATEST_DEGREE;

/// The stage files that the options of `ring` name.
#[derive(Clone, Copy)]
pub struct StageFiles<'a> {
    /// The file to take stages from.
    pub from: Option<&'a str>,
    /// The file to save them to.
    pub save: Option<&'a str>,
}

/// An option of `ring`.
#[derive(Clone, Copy)]
pub enum StageOption {
    From,
    Save,
}

/// What the words of `ring` after its name have given so far.
#[derive(Clone, Copy)]
pub struct RingWords<'a> {
    pub path: Option<&'a str>,
    pub degree: Option<&'a str>,
    pub files: StageFiles<'a>,
    /// The option whose path comes next.
    pub due: Option<StageOption>,
}

// A place that no word has yet takes this one, which may stand for a file.
fn put<'a>(place: Option<&'a str>, word: &'a str) -> Option<&'a str>
    ensures { path_in result ≡ put (path_in place.entry) word.now }
{
    match place {
        None if is_plain(word) => Some(word),
        _ => None,
    }
}

// The same with the path of the option `--from`.
fn with_from<'a>(words: RingWords<'a>, word: &'a str) -> Option<RingWords<'a>>
    ensures { option_map ring_words_of result ≡ with_from (ring_words_of words.entry) word.now }
{
    match put(words.files.from, word) {
        Some(path) => Some(RingWords {
            path: words.path,
            degree: words.degree,
            files: StageFiles {
                from: Some(path),
                save: words.files.save,
            },
            due: None,
        }),
        None => None,
    }
}

// The same with the path of the option `--save`.
fn with_save<'a>(words: RingWords<'a>, word: &'a str) -> Option<RingWords<'a>>
    ensures { option_map ring_words_of result ≡ with_save (ring_words_of words.entry) word.now }
{
    match put(words.files.save, word) {
        Some(path) => Some(RingWords {
            path: words.path,
            degree: words.degree,
            files: StageFiles {
                from: words.files.from,
                save: Some(path),
            },
            due: None,
        }),
        None => None,
    }
}

// The same with a word that is neither an option nor its path.
fn with_operand<'a>(words: RingWords<'a>, word: &'a str) -> Option<RingWords<'a>>
    ensures { option_map ring_words_of result
        ≡ with_operand (ring_words_of words.entry) (ring_words_of words.entry).path word.now }
{
    match words.path {
        None => match put(None, word) {
            Some(path) => Some(RingWords {
                path: Some(path),
                degree: words.degree,
                files: words.files,
                due: words.due,
            }),
            None => None,
        },
        Some(path) => match put(words.degree, word) {
            Some(degree) => Some(RingWords {
                path: Some(path),
                degree: Some(degree),
                files: words.files,
                due: words.due,
            }),
            None => None,
        },
    }
}

// The same where the path of this option comes next.
fn with_due<'a>(words: RingWords<'a>, option: StageOption) -> RingWords<'a>
    ensures { ring_words_of result ≡ with_due option (ring_words_of words.entry) }
{
    RingWords {
        path: words.path,
        degree: words.degree,
        files: words.files,
        due: Some(option),
    }
}

// The same with one more word.
fn with_word<'a>(words: RingWords<'a>, word: &'a str) -> Option<RingWords<'a>>
    ensures { option_map ring_words_of result
        ≡ with_word (ring_words_of words.entry) (ring_words_of words.entry).due word.now }
{
    match words.due {
        Some(StageOption::From) => with_from(words, word),
        Some(StageOption::Save) => with_save(words, word),
        None if word == "--from" => Some(with_due(words, StageOption::From)),
        None if word == "--save" => Some(with_due(words, StageOption::Save)),
        None => with_operand(words, word),
    }
}

// What all words give.
fn with_words<'a>(words: &'a [String]) -> Option<RingWords<'a>>
    ensures { option_map ring_words_of result ≡ with_words (Some no_ring_words) (texts words.now) }
{
    let mut found = RingWords {
        path: None,
        degree: None,
        files: StageFiles {
            from: None,
            save: None,
        },
        due: None,
    };
    for word in words {
        match with_word(found, word.as_str()) {
            Some(more) => {
                found = more;
            }
            None => return None,
        }
    }
    Some(found)
}

// The stage file that is saved to is the file of the presentation.
fn saves_over(save: Option<&str>, path: &str) -> bool
    ensures { result ≡ saves_over (path_in save.entry) path.now }
{
    match save {
        Some(save) => save == path,
        None => false,
    }
}

// The command, where no word is wanting and the file is not saved over.
fn ring_of<'a>(words: RingWords<'a>) -> Option<Command<'a>>
    ensures asked { option_map asked result ≡ ring_of (ring_words_of words.entry) }
    ensures within { IfSome result (λ found. IsWithin (asked found)) }
{
    let (Some(path), Some(degree), None) = (words.path, words.degree, words.due) else {
        return None;
    };
    if saves_over(words.files.save, path) {
        return None;
    }
    match read_number(1, GREATEST_DEGREE, degree) {
        Some(n) => Some(Command::Ring(path, n, words.files)),
        None => None,
    }
}

/// The command that the words of `ring` after its name ask for.
pub fn ring_command<'a>(words: &'a [String]) -> Option<Command<'a>>
    ensures asked { option_map asked result ≡ ring_command (texts words.now) }
    ensures within { IfSome result (λ found. IsWithin (asked found)) }
{
    match with_words(words) {
        Some(found) => ring_of(found),
        None => None,
    }
}
