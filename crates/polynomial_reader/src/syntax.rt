//! The grammar of polynomial texts as an automaton over their bytes.

ghost use Rattle.std.specs.Prelude.{◌≡◌, ◌+◌, ◌-◌, ◌≤◌, Some, IsNone, IfSome, true, ◌↔◌};
ghost use Rattle.polynomial_texts.specs.Grammar.{Sum, IsTextOf, Stops, is_letter, is_digit, is_name_byte};
ghost use Rattle.polynomial_reader.specs.Automaton.{separator, term_start, exponent_start, goes_on, after};
ghost use Rattle.polynomial_reader.specs.Automaton.{is_end};

use limits::GREATEST_DEGREE;

/// What the bytes so far end in.
#[derive(Clone, Copy, Debug, PartialEq, Eq)]
pub(crate) enum State {
    Start,
    /// The text `0`.
    Zero,
    /// The text `1`, to which a `*` may come.
    One,
    Coefficient,
    /// Behind a `+`.
    TermStart,
    /// Behind a `*`.
    FactorStart,
    Name,
    Caret,
    /// This first digit of an exponent.
    ExponentDigit(u8),
    /// An exponent of two digits.
    Exponent,
}

fn is_letter(b: u8) -> bool
    ensures { result ≡ is_letter b }
{
    b'A' <= b && b <= b'Z' || b'a' <= b && b <= b'z'
}

pub(crate) fn is_digit(b: u8) -> bool
    ensures { result ≡ is_digit b }
{
    b'0' <= b && b <= b'9'
}

fn is_name_byte(b: u8) -> bool
    ensures { result ≡ is_name_byte b }
{
    is_letter(b) || is_digit(b) || b == b'_'
}

// The state where a factor ends before the byte.
fn separator(b: u8) -> Option<State>
    ensures { result ≡ separator b }
{
    match b {
        b'*' => Some(State::FactorStart),
        b'+' => Some(State::TermStart),
        _ => None,
    }
}

// The state where a term begins with the byte.
fn term_start(p: u8, b: u8) -> Option<State>
    requires prime { (2 ≤ p) × (p ≤ 7) }
    ensures { result ≡ term_start (p - 1) b }
{
    if is_letter(b) {
        Some(State::Name)
    } else if b'1' <= b && b <= b'0' + (p - 1) {
        Some(State::Coefficient)
    } else {
        None
    }
}

impl State {
    // The state behind one more byte, where a text goes on with it.
    fn after(self, p: u8, b: u8) -> Option<State>
        requires prime { (2 ≤ p) × (p ≤ 7) }
        ensures { result ≡ after (p - 1) self b }
    {
        match self {
            State::Start if b == b'0' => Some(State::Zero),
            State::Start if b == b'1' => Some(State::One),
            State::Start | State::TermStart => term_start(p, b),
            State::Zero => None,
            State::One | State::Coefficient if b == b'*' => Some(State::FactorStart),
            State::One | State::Coefficient => None,
            State::FactorStart if is_letter(b) => Some(State::Name),
            State::FactorStart => None,
            State::Name if is_name_byte(b) => Some(State::Name),
            State::Name if b == b'^' => Some(State::Caret),
            State::Caret => exponent_start(b),
            State::ExponentDigit(c) if goes_on(c, b) => Some(State::Exponent),
            State::Name | State::ExponentDigit(_) | State::Exponent => separator(b),
        }
    }

    // Whether a text may end here.
    fn is_end(self) -> bool
        ensures { result ≡ is_end self }
    {
        match self {
            State::Start
            | State::Coefficient
            | State::TermStart
            | State::FactorStart
            | State::Caret => false,
            State::Zero | State::One | State::Name | State::ExponentDigit(_) | State::Exponent =>
                true,
        }
    }
}

// The state where an exponent begins with the byte.
fn exponent_start(b: u8) -> Option<State>
    ensures { result ≡ exponent_start b }
{
    if b'1' <= b && b <= b'9' {
        Some(State::ExponentDigit(b - b'0'))
    } else {
        None
    }
}

// Whether an exponent with the first digit c goes on with the byte.
fn goes_on(c: u8, b: u8) -> bool
    ensures { result ≡ goes_on c b }
{
    is_digit(b) && 10 * u32::from(c) + u32::from(b - b'0') <= GREATEST_DEGREE
}

/// How many bytes go on to a text of the grammar, where the text is none.
pub(crate) fn stop(p: u8, text: &[u8]) -> Option<usize>
    requires prime { (2 ≤ p) × (p ≤ 7) }
    ensures none { IsNone result → (s : Sum) × IsTextOf (p - 1) s text.now }
    ensures some { IfSome result (λ n. Stops (p - 1) text.now n) }
{
    let mut state = State::Start;
    for (i, b) in text.iter().enumerate() {
        match state.after(p, *b) {
            Some(next) => state = next,
            None => return Some(i),
        }
    }
    if state.is_end() {
        None
    } else {
        Some(text.len())
    }
}
