//! Texts with faults, texts at the edges of the grammar, and canonical texts.

use limits::{LONGEST_TEXT, MOST_GENERATORS};
use pc_group::Presentation;
use pc_text::{Kind, TextFault, read_presentation, write_presentation};
use std::alloc::Global;
use std::process::Abort;
use std::test::Fail;

// The fault of a text, where it has one.
fn fault(rt: &impl Abort, alloc: Global, text: &str) -> Option<TextFault> {
    assert!(rt; text.len() <= LONGEST_TEXT);
    read_presentation(alloc, text.as_bytes()).err()
}

fn expect_fault(rt: &impl Abort, alloc: Global, text: &str, kind: Kind, line: u32, column: u32) {
    assert_eq!(rt;
        fault(rt, alloc, text),
        Some(TextFault::At { kind, line, column }),
        "in {text:?}"
    );
}

const KINDS: [(&str, Kind, u32, u32); 9] = [
    ("", Kind::BadHeader, 1, 1),
    ("pgroup 1\nprime 4\ngens 1\n", Kind::BadPrime, 2, 1),
    ("pgroup 1\nprime 2\ngens 2 \n", Kind::BadCount, 3, 1),
    ("pgroup 1\nprime 2\ngens 2\n\n", Kind::BadLine, 4, 1),
    (
        "pgroup 1\nprime 2\ngens 2\ng3^2 = 1\n",
        Kind::BadGenerator,
        4,
        1,
    ),
    (
        "pgroup 1\nprime 2\ngens 2\ng1^3 = 1\n",
        Kind::BadPower,
        4,
        4,
    ),
    (
        "pgroup 1\nprime 2\ngens 2\n[g1,g2] = 1\n",
        Kind::BadOrder,
        4,
        1,
    ),
    (
        "pgroup 1\nprime 2\ngens 3\ng1^2 = g3*g2\n",
        Kind::BadWord,
        4,
        11,
    ),
    (
        "pgroup 1\nprime 2\ngens 2\ng1^2 = g2\ng1^2 = g2\n",
        Kind::Repeated,
        5,
        1,
    ),
];

#[test]
fn each_kind_of_fault(rt: HostRuntime) {
    for (text, kind, line, column) in KINDS {
        expect_fault(&rt, rt.alloc(), text, kind, line, column);
    }
}

const HEADERS: [(&str, Kind, u32); 9] = [
    ("pgroup 1", Kind::BadHeader, 1),
    ("pgroup 1\r\nprime 2\r\ngens 2\r\n", Kind::BadHeader, 1),
    ("pgroup 1 \nprime 2\ngens 2\n", Kind::BadHeader, 1),
    ("pgroup 1\n", Kind::BadPrime, 2),
    ("pgroup 1\nprime 02\ngens 2\n", Kind::BadPrime, 2),
    ("pgroup 1\nprime 11\ngens 2\n", Kind::BadPrime, 2),
    ("pgroup 1\nprime 2\ngens 02\n", Kind::BadCount, 3),
    ("pgroup 1\nprime 2\ngens\n", Kind::BadCount, 3),
    ("pgroup 1\nprime 2\ngens 2", Kind::BadCount, 3),
];

#[test]
fn edges_of_the_header(rt: HostRuntime) {
    for (text, kind, line) in HEADERS {
        expect_fault(&rt, rt.alloc(), text, kind, line, 1);
    }
}

// The text with these lines behind the three of its header.
fn expect_fault_behind(
    rt: &impl Abort,
    alloc: Global,
    header: &str,
    lines: &str,
    kind: Kind,
    line: u32,
    column: u32,
) -> Result<(), Fail> {
    let text = format!(in alloc; "{header}{lines}")?;
    expect_fault(rt, alloc, text.as_str(), kind, line, column);
    Ok(())
}

const THREE_OF_2: &str = "pgroup 1\nprime 2\ngens 3\n";

const THREE_OF_3: &str = "pgroup 1\nprime 3\ngens 3\n";

// Line 4 over three generators and the prime 3.
const RELATIONS: [(&str, Kind, u32); 22] = [
    ("[g2,g1] = g3", Kind::BadLine, 1),
    ("g1^3 = \n", Kind::BadLine, 1),
    ("g1^3= g2\n", Kind::BadLine, 1),
    ("g^3 = 1\n", Kind::BadLine, 1),
    ("g0^3 = 1\n", Kind::BadGenerator, 1),
    ("[g02,g1] = 1\n", Kind::BadGenerator, 2),
    ("[g2,g4] = 1\n", Kind::BadGenerator, 5),
    ("g4294967297^3 = 1\n", Kind::BadGenerator, 1),
    ("g1^03 = 1\n", Kind::BadPower, 4),
    ("[g2,g2] = 1\n", Kind::BadOrder, 1),
    ("g1^3 = g2*g3^1\n", Kind::BadWord, 11),
    ("g1^3 = g2*g3^3\n", Kind::BadWord, 11),
    ("g1^3 = g03\n", Kind::BadWord, 8),
    ("g1^3 = g4\n", Kind::BadWord, 8),
    ("g2^3 = g2\n", Kind::BadWord, 8),
    ("g1^3 = g2*g2\n", Kind::BadWord, 11),
    ("g1^3 = g2^2*1\n", Kind::BadWord, 13),
    ("g1^3 = g2*\n", Kind::BadWord, 11),
    ("g1^3 =  g2\n", Kind::BadWord, 8),
    ("g1^3 = g2 \n", Kind::BadWord, 8),
    ("g1^3 = g2\r\n", Kind::BadWord, 8),
    ("[g2,g1] = g2\n", Kind::BadWord, 11),
];

#[test]
fn edges_of_a_relation(rt: HostRuntime) -> Result<(), Fail> {
    for (line, kind, column) in RELATIONS {
        expect_fault_behind(&rt, rt.alloc(), THREE_OF_3, line, kind, 4, column)?;
    }
    Ok(())
}

const LINES: [(&str, Kind, u32, u32); 4] = [
    ("g1^2 = g3\n[g2,g1] = g3\ng2^3 = g3\n", Kind::BadPower, 6, 4),
    ("g1^2 = g3\ng2^2 = g1\n\n", Kind::BadWord, 5, 8),
    ("g1^2 = 1\ng1^2 = 1\n[g4,g1] = 1\n", Kind::Repeated, 5, 1),
    ("g1^2 = 1\ng1^2 = g1\n", Kind::BadWord, 5, 8),
];

#[test]
fn first_line_with_a_fault(rt: HostRuntime) -> Result<(), Fail> {
    for (lines, kind, line, column) in LINES {
        expect_fault_behind(&rt, rt.alloc(), THREE_OF_2, lines, kind, line, column)?;
    }
    Ok(())
}

// The fault of a text with this number of generators.
fn fault_of_count(rt: &impl Abort, alloc: Global, gens: u32) -> Result<Option<TextFault>, Fail> {
    let text = format!(in alloc; "pgroup 1\nprime 7\ngens {gens}\n")?;
    Ok(fault(rt, alloc, text.as_str()))
}

#[test]
fn counts_of_generators(rt: HostRuntime) -> Result<(), Fail> {
    let bad = TextFault::At {
        kind: Kind::BadCount,
        line: 3,
        column: 1,
    };
    assert_eq!(rt; fault_of_count(&rt, rt.alloc(), 0)?, None);
    assert_eq!(rt; fault_of_count(&rt, rt.alloc(), MOST_GENERATORS)?, None);
    assert_eq!(rt;
        fault_of_count(&rt, rt.alloc(), MOST_GENERATORS + 1)?,
        Some(bad)
    );
    Ok(())
}

fn read(rt: &impl Abort, alloc: Global, text: &str) -> Presentation {
    assert!(rt; text.len() <= LONGEST_TEXT);
    read_presentation(alloc, text.as_bytes()).expect(rt, "a presentation")
}

const QUATERNION: &str = "pgroup 1\nprime 2\ngens 3\ng1^2 = g3\ng2^2 = g3\n[g2,g1] = g3\n";

#[test]
fn words_of_the_quaternion_group(rt: HostRuntime) {
    let p = read(&rt, rt.alloc(), QUATERNION);
    assert_eq!(rt; p.prime().value(), 2);
    assert!(rt; p.gens() == 3);
    assert_eq!(rt; p.power_word(1).as_slice(), [0, 0, 1].as_slice());
    assert_eq!(rt; p.power_word(2).as_slice(), [0, 0, 1].as_slice());
    assert_eq!(rt; p.power_word(3).as_slice(), [0, 0, 0].as_slice());
    assert_eq!(rt; p.commutator(2, 1).as_slice(), [0, 0, 1].as_slice());
    assert_eq!(rt; p.commutator(3, 1).as_slice(), [0, 0, 0].as_slice());
    assert_eq!(rt; p.commutator(3, 2).as_slice(), [0, 0, 0].as_slice());
}

const EXTRASPECIAL: &str = "pgroup 1\nprime 5\ngens 3\ng1^5 = g3^4\n[g2,g1] = g3\n";

const TRIVIAL: &str = "pgroup 1\nprime 7\ngens 0\n";

const LONG: &str = "pgroup 1\nprime 3\ngens 11\ng10^3 = g11\n[g3,g2] = g4*g5^2*g11\n";

const DISORDERED: &str =
    "pgroup 1\nprime 2\ngens 3\n[g3,g1] = 1\n[g2,g1] = g3\ng2^2 = g3\ng1^2 = g3\n";

// A text and the canonical text of its presentation.
const CANONICAL: [(&str, &str); 5] = [
    (QUATERNION, QUATERNION),
    (EXTRASPECIAL, EXTRASPECIAL),
    (TRIVIAL, TRIVIAL),
    (LONG, LONG),
    (DISORDERED, QUATERNION),
];

#[test]
fn canonical_texts(rt: HostRuntime) -> Result<(), Fail> {
    for (text, canonical) in CANONICAL {
        let written = write_presentation(rt.alloc(), &read(&rt, rt.alloc(), text))?;
        assert_eq!(rt; written.as_slice(), canonical.as_bytes());
    }
    Ok(())
}
