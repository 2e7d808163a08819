//! The lines of the subgroups of a report.

ghost use Rattle.std.specs.Prelude.{◌≡◌, ◌+◌, ◌<◌, ◌^◌, ◌++◌, All, length, map, IfOk, OnOk, slice_index_or};
ghost use Rattle.graded_polynomials.specs.Polynomials.{Polynomial};
ghost use Rattle.coho_report.specs.Lines.{all_subgroup_lines, basis_line, image_line, image_lines};
ghost use Rattle.coho_report.specs.Lines.{subgroup_lines};

use crate::subgroups::SubgroupReport;
use gc_poly::Gens;
use group_table::Memory;
use std::alloc::{AllocError, Global};

// The number of the subgroup at a place, its rank and its basis.
fn basis_line(alloc: Global, place: usize, s: &SubgroupReport) -> Result<Vec<u8>, AllocError>
    requires { place + 1 < 2 ^ 64 }
    ensures { IfOk result (λ line. line.items ≡ basis_line (place + 1) s.now.basis) }
{
    let number = place + 1;
    let rank = s.rank();
    let mut text = format!(in alloc; "subgroup {number} rank {rank} basis")?;
    for i in 0..rank {
        let member = s.basis(i);
        let word = format!(in alloc; " {member}")?;
        text.push_str(&word)?;
    }
    text.push('\n')?;
    Ok(text.into_bytes())
}

// The name of generator i, and the text of its restriction.
fn image_line(alloc: Global, gens: &Gens, s: &SubgroupReport, i: usize) -> Result<Vec<u8>, Memory>
    requires generator { i < length gens.now.degrees }
    requires image { i < length s.now.images }
    ensures { IfOk result (λ line. (f : Polynomial) → line.items
        ≡ image_line gens.now.degrees s.now.generators i (slice_index_or s.now.images i f)) }
{
    let degree = gens.degree(i);
    let number = gens.number(i);
    let mut text = format!(in alloc; "x_{degree}_{number} -> ")?.into_bytes();
    s.write_image(i, &mut text)?;
    text.push(b'\n')?;
    Ok(text)
}

// The lines of the restrictions.
fn image_lines(alloc: Global, gens: &Gens, s: &SubgroupReport) -> Result<Vec<Vec<u8>>, Memory>
    requires { length s.now.images ≡ length gens.now.degrees }
    ensures { IfOk result (λ lines. map (λ l. l.items) lines.items
        ≡ image_lines gens.now.degrees s.now.generators s.now.images) }
{
    let mut lines = Vec::new(alloc);
    for i in 0..s.images() {
        lines.push(image_line(alloc, gens, s, i)?)?;
    }
    Ok(lines)
}

// Adds the lines of the subgroup at a place.
fn push_subgroup_lines(
    alloc: Global,
    gens: &Gens,
    place: usize,
    s: &SubgroupReport,
    lines: &mut Vec<Vec<u8>>,
) -> Result<(), Memory>
    requires place { place + 1 < 2 ^ 64 }
    requires count { length s.now.images ≡ length gens.now.degrees }
    ensures { OnOk result (map (λ l. l.items) lines.new.items
        ≡ map (λ l. l.items) lines.old.items ++ subgroup_lines gens.now.degrees place s.now) }
{
    lines.push(basis_line(alloc, place, s)?)?;
    lines.append(&mut image_lines(alloc, gens, s)?)?;
    Ok(())
}

/// The lines of the subgroups.
pub(crate) fn all_subgroup_lines(
    alloc: Global,
    gens: &Gens,
    subgroups: &[SubgroupReport],
) -> Result<Vec<Vec<u8>>, Memory>
    requires { All (λ s. length s.images ≡ length gens.now.degrees) subgroups.now }
    ensures { IfOk result (λ lines. map (λ l. l.items) lines.items
        ≡ all_subgroup_lines gens.now.degrees subgroups.now) }
{
    let mut lines = Vec::new(alloc);
    for i in 0..subgroups.len() {
        push_subgroup_lines(alloc, gens, i, &subgroups[i], &mut lines)?;
    }
    Ok(lines)
}
