ghost use Rattle.std.specs.Prelude.{◌≡◌};

use fp_rows::RowRef;
use group_algebra::Algebra;
use group_table::Prime;
use min_res::{Resolution, Stage, StageParts};
use pc_group::Presentation;
use small_groups::SmallGroup;
use stage_file::*;
use std::alloc::Global;
use std::process::Abort;
use std::test::Fail;

/// The record of degree 1 of the group of two elements: length 42, degree 1, rank 1, position 1, the kernel's
/// row 0 1, the section 1 0, and the SHA-256 of the parts from the degree on.
const FIRST: [u8; 46] = [
    0, 0, 0, 42, 0, 1, 0, 1, 0, 1, 0, 1, 1, 0, 64, 124, 249, 213, 217, 201, 212, 162, 187, 87, 22,
    142, 49, 122, 8, 60, 48, 33, 190, 206, 4, 145, 146, 68, 81, 27, 122, 57, 237, 208, 31, 244,
];

/// The header of its file: eight letters, and the SHA-256 of the three lines of its presentation.
const HEADER: [u8; 40] = [
    99, 111, 104, 111, 115, 116, 103, 49, 22, 161, 124, 72, 125, 24, 253, 102, 250, 2, 55, 69, 99,
    246, 79, 73, 185, 82, 144, 5, 114, 65, 111, 25, 104, 226, 52, 117, 189, 118, 25, 179,
];

fn shape() -> Shape
    ensures order { result.order ≡ 2 }
    ensures degree { result.degree ≡ 1 }
    ensures previous { result.previous ≡ 1 }
{
    Shape {
        p: Prime::P2,
        order: 2,
        degree: 1,
        previous: 1,
    }
}

fn wrong_field(bytes: &[u8]) -> Option<Field> {
    match next_record(bytes, &shape()) {
        Record::Malformed(field) => Some(field),
        Record::Cut | Record::Whole(_) => None,
    }
}

/// A byte of the record altered, and the field that is wrong then.
const ALTERED: [(usize, u8, Field); 9] = [
    (3, 35, Field::Length),
    (0, 2, Field::Length),
    (5, 2, Field::Degree),
    (7, 2, Field::Rank),
    (9, 0, Field::Position),
    (9, 2, Field::Position),
    (11, 2, Field::Entry),
    (11, 0, Field::Digest),
    (45, 0, Field::Digest),
];

fn expect_field(rt: &impl Abort, at: usize, byte: u8, field: Field) {
    let mut bytes = FIRST;
    assert!(rt; at < bytes.len());
    bytes[at] = byte;
    assert_eq!(rt; wrong_field(&bytes), Some(field), "byte {at} is {byte}");
}

#[test]
fn names_the_first_wrong_field(rt: HostRuntime) {
    for (at, byte, field) in ALTERED {
        expect_field(&rt, at, byte, field);
    }
}

fn pair_of(r: RowRef<'_>) -> Option<(u8, u8)> {
    if r.len() == 2 {
        Some((r.get(0), r.get(1)))
    } else {
        None
    }
}

/// The position, the row of the kernel and the section of a record that has one of each.
fn parts_of(bytes: &[u8]) -> Option<(u32, Option<(u8, u8)>, Option<(u8, u8)>)> {
    let Record::Whole(parts) = next_record(bytes, &shape()) else {
        return None;
    };
    if parts.rank() != 1 {
        return None;
    }
    Some((
        parts.position(0),
        pair_of(parts.kernel_row(0)),
        pair_of(parts.section_row(0)),
    ))
}

#[test]
fn reads_whole_records(rt: HostRuntime) {
    assert_eq!(rt; parts_of(&FIRST), Some((0, Some((0, 1)), Some((1, 0)))));
    for len in [0, 3, 4, 45] {
        assert!(rt; len < FIRST.len());
        let record = next_record(&FIRST[..len], &shape());
        assert!(rt; matches!(record, Record::Cut), "the first {len} bytes");
    }
}

#[test]
fn reads_lengths_in_their_range(rt: HostRuntime) {
    assert_eq!(rt; record_len(&[0, 0, 0, 35]), None);
    assert_eq!(rt; record_len(&[0, 0, 0, 36]), Some(36));
    assert_eq!(rt; record_len(&[1, 0, 16, 36]), Some(16_781_348));
    assert_eq!(rt; record_len(&[1, 0, 16, 37]), None);
}

#[test]
fn makes_the_header(rt: HostRuntime) -> Result<(), Fail> {
    let presentation = Presentation::new(rt.alloc(), Prime::P2, 1)?;
    assert_eq!(rt; header(rt.alloc(), &presentation)?, HEADER);
    Ok(())
}

/// A byte of the header altered, where there is one at this place, how many bytes are read, and the answer.
const ANSWERS: [(usize, usize, HeaderAnswer); 7] = [
    (40, 40, HeaderAnswer::Match),
    (40, 39, HeaderAnswer::Cut),
    (40, 0, HeaderAnswer::Cut),
    (7, 40, HeaderAnswer::Format),
    (7, 8, HeaderAnswer::Format),
    (8, 9, HeaderAnswer::Presentation),
    (39, 40, HeaderAnswer::Presentation),
];

fn expect_answer(rt: &impl Abort, at: usize, len: usize, answer: HeaderAnswer) {
    let mut bytes = HEADER;
    if at < bytes.len() {
        bytes[at] = b'!';
    }
    assert!(rt; len <= bytes.len());
    let read = read_header(&bytes[..len], &HEADER);
    assert_eq!(rt; read, answer, "byte {at} of {len}");
}

#[test]
fn compares_headers(rt: HostRuntime) {
    for (at, len, answer) in ANSWERS {
        expect_answer(&rt, at, len, answer);
    }
}

/// Appends the record of the last stage.
fn append_record(
    rt: &impl Abort,
    alloc: Global,
    file: &mut Vec<u8>,
    r: &Resolution,
) -> Result<(), Fail> {
    let stage = r.stage_at(r.last());
    assert!(rt; stage.degree() >= 1);
    assert!(rt; stage.degree() <= 24);
    assert!(rt; stage.kernel().width() <= 4096);
    file.extend_from_slice(&write_record(alloc, stage)?)?;
    Ok(())
}

/// The stage file of the group of two elements to degree n.
fn file_of_two(rt: &impl Abort, alloc: Global, n: u32) -> Result<Vec<u8>, Fail> {
    let algebra = Algebra::build(alloc, &SmallGroup::Two.group(alloc)?)?;
    let mut resolution = Resolution::start(alloc, algebra)?;
    let mut file = Vec::new(alloc);
    file.extend_from_slice(&HEADER)?;
    for _d in 0..n {
        assert!(rt; resolution.last() < 24);
        resolution.extend(4096)?;
        append_record(rt, alloc, &mut file, &resolution)?;
    }
    Ok(file)
}

#[test]
fn writes_the_file_of_two_elements(rt: HostRuntime) -> Result<(), Fail> {
    let file = file_of_two(&rt, rt.alloc(), 3)?;
    assert_eq!(rt; file.len(), 178);
    assert_eq!(rt; &file[40..86], FIRST.as_slice());
    Ok(())
}
