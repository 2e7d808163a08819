//! Texts read by hand.

ghost use Rattle.std.specs.Prelude.{◌≤◌, length};

use gc_poly::{Gens, write_text};
use group_table::Prime;
use limits::LONGEST_TEXT;
use polynomial_reader::read_poly;
use std::alloc::Global;
use std::process::Abort;
use std::test::Fail;

// Generators of degrees 1, 1 and 2.
fn small_gens(alloc: Global, p: Prime) -> Result<Gens, Fail> {
    let mut gens = Gens::new(alloc, p);
    gens.push(1)?;
    gens.push(1)?;
    gens.push(2)?;
    Ok(gens)
}

// What a text is read as: the polynomial's own text, or the fault.
fn answer_of(alloc: Global, gens: &Gens, text: &str) -> Result<String, Fail>
    requires { length text.now ≤ LONGEST_TEXT }
{
    match read_poly(alloc, gens, text.as_bytes()) {
        Ok(f) => {
            let mut text = Vec::new(alloc);
            write_text(gens, &f, &mut text)?;
            Ok(String::from_utf8(text)?)
        }
        Err(fault) => Ok(format!(in alloc; "{fault:?}")?),
    }
}

// Texts, and what they are read as.
const TEXTS: [(Prime, &str, &str); 21] = [
    (Prime::P2, "x_1_1+y", "UnknownName(7)"),
    (Prime::P2, "x_1_1+x_2_1", "Mixed(1, 2)"),
    (Prime::P2, "x_1_1+", "Syntax(7)"),
    (Prime::P2, "x_2_1^20", "TooHigh(40)"),
    (Prime::P2, "x_2_1^25", "Syntax(8)"),
    (Prime::P2, "x_2_1+x_1_2*x_1_1", "x_1_1*x_1_2+x_2_1"),
    (Prime::P2, "1*x_1_1+x_1_1", "0"),
    (Prime::P2, "2*x_1_1", "Syntax(1)"),
    (Prime::P3, "x_1_2*x_1_1", "2*x_1_1*x_1_2"),
    (Prime::P3, "2*x_1_2*x_1_1^1+x_2_1", "x_1_1*x_1_2+x_2_1"),
    (Prime::P3, "2*x_1_1*x_1_2+x_2_1", "2*x_1_1*x_1_2+x_2_1"),
    (Prime::P3, "x_1_1^2", "0"),
    (Prime::P3, "3*x_1_1", "Syntax(1)"),
    (Prime::P3, "2*x_1_1^02", "Syntax(9)"),
    (Prime::P3, "0", "0"),
    (Prime::P3, "1", "1"),
    (Prime::P3, "", "Syntax(1)"),
    (Prime::P3, "0*x_1_1", "Syntax(2)"),
    (Prime::P3, "1+x_1_1", "Syntax(2)"),
    (Prime::P3, "x_1_1+x_2_1+y", "UnknownName(13)"),
    (Prime::P3, "x_1_1+x_2_1^12*x_1_1", "TooHigh(25)"),
];

fn reads(rt: &impl Abort, alloc: Global, case: &(Prime, &str, &str)) -> Result<(), Fail> {
    let gens = small_gens(alloc, case.0)?;
    assert!(rt; case.1.len() <= LONGEST_TEXT);
    let answer = answer_of(alloc, &gens, case.1)?;
    assert_eq!(rt; answer.as_str(), case.2);
    Ok(())
}

#[test]
fn texts_read(rt: HostRuntime) -> Result<(), Fail> {
    for case in &TEXTS {
        reads(&rt, rt.alloc(), case)?;
    }
    Ok(())
}
