//! A stage as a record.

ghost use Rattle.std.specs.Prelude.{◌≡◌, ◌≤◌, ◌<◌, ◌+◌, ◌*◌, ◌^◌, ◌++◌, ℕ, IfOk, OnOk, Some, length};
ghost use Rattle.std.specs.Prelude.{slice_index};
ghost use Rattle.std.specs.List.{concat};
ghost use Rattle.fp_rows.specs.Refs.{entries_of};
ghost use Rattle.limits.specs.declared.TheConstants.{GREATEST_DEGREE};
ghost use Rattle.min_res.specs.Defined.{IsStageAt};
ghost use Rattle.min_res.specs.Stages.{stage_rows};
ghost use Rattle.min_res.specs.Values.{boundary_of};
ghost use Rattle.p_groups.specs.PGroups.{PGroup, order_of};
ghost use Rattle.stage_file.specs.Written.{IsSomeStage, HasSizes, parts_of_stage};
ghost use Rattle.stage_records.specs.declared.TheConstants.{GREATEST_WIDTH};
ghost use Rattle.stage_records.specs.Records.{body, position_bytes, record_at, record_of_width};

use fp_rows::{Echelon, RowRef};
use group_table::Memory;
use min_res::Stage;
use sha2::{Digest, Sha256};
use std::alloc::Global;

// Appends the entries of a row.
fn push_row(out: &mut Vec<u8>, r: RowRef<'_>) -> Result<(), Memory>
    ensures { OnOk result (out.new.items ≡ out.old.items ++ entries_of r.entry) }
{
    for j in 0..r.len() {
        out.push(r.get(j))?;
    }
    Ok(())
}

// Appends the rows of a list.
fn push_rows(out: &mut Vec<u8>, list: &Echelon) -> Result<(), Memory>
    ensures { OnOk result (out.new.items ≡ out.old.items ++ concat list.now.rows) }
{
    for i in 0..list.rows() {
        push_row(out, list.row(i))?;
    }
    Ok(())
}

// Appends the sections of the rows of the list before.
fn push_sections(out: &mut Vec<u8>, s: &Stage) -> Result<(), Memory>
    requires above_zero { 0 < s.now.degree }
    requires count { length (boundary_of s.now).sections.rows ≡ length (boundary_of s.now).source.rows }
    ensures { OnOk result (out.new.items ≡ out.old.items ++ concat (boundary_of s.now).sections.rows) }
{
    let Some(source) = s.source() else {
        return Ok(());
    };
    for i in 0..source.rows() {
        push_row(out, s.section_row(i))?;
    }
    Ok(())
}

// Appends the positions of the boundary's rows, counted from 1.
fn push_positions(out: &mut Vec<u8>, s: &Stage) -> Result<(), Memory>
    requires above_zero { 0 < s.now.degree }
    requires count { s.now.rank ≡ length (boundary_of s.now).positions }
    requires small { (i : ℕ) → i < s.now.rank → slice_index (boundary_of s.now).positions i + 1 < 2 ^ 16 }
    ensures { OnOk result (out.new.items ≡ out.old.items ++ position_bytes (boundary_of s.now).positions) }
{
    for i in 0..s.rank() {
        let number = (s.position(i) + 1) as u16;
        out.extend_from_slice(&number.to_be_bytes())?;
    }
    Ok(())
}

// Appends what stands under the digest.
#[tactic(auto, unfolding(stage_records::specs::Records::body))]
fn push_body(out: &mut Vec<u8>, s: &Stage) -> Result<(), Memory>
    requires { HasSizes s.now }
    ensures { OnOk result (out.new.items ≡ out.old.items ++ body s.now.degree (parts_of_stage s.now)) }
{
    out.extend_from_slice(&(s.degree() as u16).to_be_bytes())?;
    out.extend_from_slice(&(s.rank() as u16).to_be_bytes())?;
    push_positions(out, s)?;
    push_rows(out, s.kernel())?;
    push_sections(out, s)?;
    Ok(())
}

// The record of a stage whose numbers have room in their fields.
#[tactic(auto, unfolding(stage_records::specs::Records::record_of_width))]
fn record_of(alloc: Global, s: &Stage) -> Result<Vec<u8>, Memory>
    requires { HasSizes s.now }
    ensures { IfOk result (λ bytes. bytes.items
        ≡ record_of_width s.now.kernel.width s.now.degree (parts_of_stage s.now)) }
{
    let width = s.kernel().width();
    let size = 36 + 2 * s.rank() + width * width;
    let mut bytes = Vec::new(alloc);
    bytes.extend_from_slice(&(size as u32).to_be_bytes())?;
    push_body(&mut bytes, s)?;
    let digest = Sha256::digest(&bytes[4..]);
    bytes.extend_from_slice(&digest)?;
    Ok(bytes)
}

/// The honest record of a stage of a degree from 1 to 24, whose free module is no wider than a record holds.
pub fn write_record(alloc: Global, s: &Stage) -> Result<Vec<u8>, Memory>
    requires from { 1 ≤ s.now.degree }
    requires to { s.now.degree ≤ GREATEST_DEGREE }
    requires small { s.now.kernel.width ≤ GREATEST_WIDTH }
    requires stage { IsSomeStage s.now }
    ensures { IfOk result (λ bytes. (G : PGroup) → IsStageAt G s.now.degree s.now
        → record_at (order_of G) (stage_rows G) s.now.degree ≡ Some bytes.items) }
{
    record_of(alloc, s)
}
