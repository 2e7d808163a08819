//! A record of a stage file, read field by field.

ghost use Rattle.std.specs.Prelude.{◌≡◌, ◌≤◌, ◌+◌, ℕ, suc, length};
ghost use Rattle.std.specs.Int.{w32, from_be_bytes};
ghost use Rattle.group_table.specs.Prime.{prime_value};
ghost use Rattle.limits.specs.declared.TheConstants.{GREATEST_DEGREE};
ghost use Rattle.p_groups.specs.PGroups.{PGroup};
ghost use Rattle.stage_file.specs.Honest.{IsShapeAt, IsVerdict};
ghost use Rattle.stage_file.specs.Headers.{ranged};
ghost use Rattle.stage_file.specs.Views.{IsOver, reading_of};
ghost use Rattle.stage_records.specs.Readings.{fits, read_fields, read_parts, read_record};
ghost use Rattle.stage_records.specs.declared.TheConstants.{GREATEST_WIDTH};
ghost use Rattle.stage_records.specs.Records.{record_length};
ghost use Rattle.stage_records.specs.Walks.{length_at};

use crate::bytes::{are_below, are_places, has_digest, number_at, part};
use crate::stage_ref::StageRef;
use group_table::Prime;
use stage_records::{Field, GREATEST_WIDTH, LONGEST_RECORD, SHORTEST_RECORD, Shape};

/// What stands at the front of the bytes.
#[derive(Clone, Copy)]
pub enum Record<'a> {
    /// Fewer bytes than a record.
    Cut,
    /// A record of this shape.
    Whole(StageRef<'a>),
    /// The first field that is not as the format says.
    Malformed(Field),
}

/// The length of a record by its first four bytes: that of the bytes which follow. `None` exactly where it is
/// out of its range.
pub fn record_len(first: &[u8; 4]) -> Option<u32>
    ensures { result ≡ ranged (from_be_bytes w32 first.now) }
{
    let length = u32::from_be_bytes(*first);
    if (SHORTEST_RECORD..=LONGEST_RECORD).contains(&length) {
        Some(length)
    } else {
        None
    }
}

/// The record at the front of the bytes, or the first of its fields that is not as the format says. Over the
/// stages of a group this and the six checks decide as the walk does. It takes no memory.
pub fn next_record<'a>(bytes: &'a [u8], shape: &Shape) -> Record<'a>
    ensures reading { reading_of result ≡ read_record shape.now bytes.now }
    ensures prime { IsOver (prime_value shape.now.p) result }
    ensures verdict { (G : PGroup) (d : ℕ) → suc d ≤ GREATEST_DEGREE → IsShapeAt G d shape.now
        → IsVerdict G d shape.now bytes.now }
{
    read_front(bytes, shape)
}

// The record at the front of the bytes.
#[tactic(auto, unfolding(stage_records::specs::Readings::read_record))]
fn read_front<'a>(bytes: &'a [u8], shape: &Shape) -> Record<'a>
    ensures reading { reading_of result ≡ read_record shape.now bytes.now }
    ensures prime { IsOver (prime_value shape.now.p) result }
{
    if bytes.len() < 4 {
        return Record::Cut;
    }
    let Some(length) = record_len(&[bytes[0], bytes[1], bytes[2], bytes[3]]) else {
        return Record::Malformed(Field::Length);
    };
    let length = length as usize;
    if bytes.len() < 4 + length {
        return Record::Cut;
    }
    read_fields(bytes, length, shape)
}

// Whether the length is that of a record of this rank and width, and the width has room for the list before.
fn fits(size: usize, previous: usize, rank: usize, width: usize) -> bool
    requires { rank ≤ 65535 }
    ensures { result ≡ fits size previous rank width }
{
    width <= GREATEST_WIDTH as usize && previous <= width && size == 36 + 2 * rank + width * width
}

// What stands behind the length, of which all bytes are there.
#[tactic(auto, unfolding(stage_records::specs::Readings::read_fields))]
fn read_fields<'a>(bytes: &'a [u8], size: usize, shape: &Shape) -> Record<'a>
    requires size { size ≡ length_at bytes.now }
    requires least { 36 ≤ size }
    requires enough { 4 + size ≤ length bytes.now }
    ensures reading { reading_of result ≡ read_fields shape.now bytes.now }
    ensures prime { IsOver (prime_value shape.now.p) result }
{
    if number_at(bytes, 2) != shape.degree {
        return Record::Malformed(Field::Degree);
    }
    let rank = number_at(bytes, 3) as usize;
    let width = shape.order as usize * rank;
    let previous = shape.previous as usize;
    if !fits(size, previous, rank, width) {
        return Record::Malformed(Field::Rank);
    }
    read_parts(bytes, shape.p, previous, rank, width)
}

// What stands behind a rank and a width that fit.
#[tactic(auto, unfolding(stage_records::specs::Readings::read_parts))]
fn read_parts(bytes: &[u8], p: Prime, previous: usize, rank: usize, width: usize) -> Record<'_>
    requires small { width ≤ GREATEST_WIDTH }
    requires few { rank ≤ 65535 }
    requires room { previous ≤ width }
    requires enough { 4 + record_length rank width ≤ length bytes.now }
    ensures reading { reading_of result ≡ read_parts (prime_value p) previous rank width bytes.now }
    ensures prime { IsOver (prime_value p) result }
{
    let positions = part(bytes, 8, 2 * rank);
    if !are_places(positions, rank, previous) {
        return Record::Malformed(Field::Position);
    }
    if !are_below(p, part(bytes, 8 + 2 * rank, width * width)) {
        return Record::Malformed(Field::Entry);
    }
    let body = 4 + 2 * rank + width * width;
    if !has_digest(part(bytes, 4, body), part(bytes, 4 + body, 32)) {
        return Record::Malformed(Field::Digest);
    }
    let kernel_size = (width - previous) * width;
    Record::Whole(StageRef {
        prime: p,
        rank,
        previous,
        width,
        positions,
        kernel: part(bytes, 8 + 2 * rank, kernel_size),
        sections: part(bytes, 8 + 2 * rank + kernel_size, previous * width),
    })
}
