//! The lines of a report.

ghost use Rattle.std.specs.Prelude.{◌≡◌, ◌<◌, ◌++◌, ◌∷◌, [], map, length, codes, IfOk};
ghost use Rattle.std.specs.List.{concat};
ghost use Rattle.graded_polynomials.specs.Texts.{name, polynomial_text};
ghost use Rattle.gc_poly.specs.Polynomials.{IsOverGenerators};
ghost use Rattle.coho_report.specs.Lines.{ended, numbered, ranks_line, generator_lines, relation_lines};
ghost use Rattle.coho_report.specs.Lines.{head_lines, ring_lines, report_lines, report_text, summary_lines};

use crate::Report;
use crate::parameter_lines::{parameter_lines, verdict_line};
use crate::subgroup_lines::all_subgroup_lines;
use gc_poly::{Gens, Poly, write_text};
use group_table::Memory;
use ring_present::Ring;
use std::alloc::{AllocError, Global};

// The word ranks, and the ranks each after a space.
fn ranks_line(alloc: Global, ranks: &[usize]) -> Result<Vec<u8>, AllocError>
    ensures { IfOk result (λ line. line.items ≡ ranks_line ranks.now) }
{
    let mut text = String::from_str(alloc, "ranks")?;
    for rank in ranks {
        let word = format!(in alloc; " {rank}")?;
        text.push_str(&word)?;
    }
    text.push('\n')?;
    Ok(text.into_bytes())
}

// The lines before the generators.
fn head_lines(alloc: Global, report: &Report) -> Result<Vec<Vec<u8>>, AllocError>
    ensures { IfOk result (λ lines. map (λ l. l.items) lines.items ≡ head_lines report.now) }
{
    let prime = report.ring.gens().prime().value();
    let order = report.order;
    let degree = report.ring.degree();
    let mut lines = Vec::new(alloc);
    lines.push(String::from_str(alloc, "coho ring 1\n")?.into_bytes())?;
    lines.push(format!(in alloc; "prime {prime}\n")?.into_bytes())?;
    lines.push(format!(in alloc; "order {order}\n")?.into_bytes())?;
    lines.push(format!(in alloc; "degree {degree}\n")?.into_bytes())?;
    lines.push(ranks_line(alloc, &report.ranks)?)?;
    Ok(lines)
}

// The name of generator i.
fn generator_line(alloc: Global, gens: &Gens, i: usize) -> Result<Vec<u8>, AllocError>
    requires { i < length gens.now.degrees }
    ensures { IfOk result (λ line. line.items ≡ ended (name gens.now.degrees i)) }
{
    let degree = gens.degree(i);
    let number = gens.number(i);
    let text = format!(in alloc; "x_{degree}_{number}\n")?;
    Ok(text.into_bytes())
}

// The names of the generators.
fn generator_lines(alloc: Global, gens: &Gens) -> Result<Vec<Vec<u8>>, AllocError>
    ensures { IfOk result (λ lines. map (λ l. l.items) lines.items ≡ generator_lines gens.now.degrees) }
{
    let mut lines = Vec::new(alloc);
    for i in 0..gens.len() {
        lines.push(generator_line(alloc, gens, i)?)?;
    }
    Ok(lines)
}

/// The text of a polynomial.
pub(crate) fn polynomial_line(alloc: Global, gens: &Gens, f: &Poly) -> Result<Vec<u8>, Memory>
    requires { IsOverGenerators gens.now f.now }
    ensures { IfOk result (λ line. line.items ≡ ended (polynomial_text gens.now.degrees f.now.terms)) }
{
    let mut text = Vec::new(alloc);
    write_text(gens, f, &mut text)?;
    text.push(b'\n')?;
    Ok(text)
}

// The texts of the relations.
fn relation_lines(alloc: Global, ring: &Ring) -> Result<Vec<Vec<u8>>, Memory>
    ensures { IfOk result (λ lines. map (λ l. l.items) lines.items
        ≡ relation_lines (map (λ g. g.degree) ring.now.generators) ring.now.relations) }
{
    let mut lines = Vec::new(alloc);
    for i in 0..ring.relations() {
        lines.push(polynomial_line(alloc, ring.gens(), ring.relation(i))?)?;
    }
    Ok(lines)
}

// The lines of the ring and of its restrictions.
fn ring_lines(alloc: Global, report: &Report) -> Result<Vec<Vec<u8>>, Memory>
    ensures { IfOk result (λ lines. map (λ l. l.items) lines.items ≡ ring_lines report.now) }
{
    let generators = report.generators();
    let relations = report.relations();
    let subgroups = report.subgroups();
    let mut lines = head_lines(alloc, report)?;
    lines.push(format!(in alloc; "generators {generators}\n")?.into_bytes())?;
    lines.append(&mut generator_lines(alloc, report.ring.gens())?)?;
    lines.push(format!(in alloc; "relations {relations}\n")?.into_bytes())?;
    lines.append(&mut relation_lines(alloc, &report.ring)?)?;
    lines.push(format!(in alloc; "subgroups {subgroups}\n")?.into_bytes())?;
    lines.append(&mut all_subgroup_lines(alloc, report.ring.gens(), &report.subgroups)?)?;
    Ok(lines)
}

/// The lines of the report, each with its LF.
pub fn report_lines(alloc: Global, report: &Report) -> Result<Vec<Vec<u8>>, Memory>
    ensures { IfOk result (λ lines. map (λ l. l.items) lines.items ≡ report_lines report.now) }
{
    let mut lines = ring_lines(alloc, report)?;
    lines.append(&mut parameter_lines(alloc, report.ring.gens(), &report.parameters)?)?;
    lines.push(verdict_line(alloc, report.complete())?)?;
    Ok(lines)
}

/// The numbers of the report alone, and whether the ring is complete.
pub fn summary_lines(alloc: Global, report: &Report) -> Result<Vec<Vec<u8>>, AllocError>
    ensures { IfOk result (λ lines. map (λ l. l.items) lines.items ≡ summary_lines report.now) }
{
    let prime = report.ring.gens().prime().value();
    let order = report.order;
    let degree = report.ring.degree();
    let generators = report.generators();
    let relations = report.relations();
    let subgroups = report.subgroups();
    let mut lines = Vec::new(alloc);
    lines.push(format!(in alloc; "prime {prime}\n")?.into_bytes())?;
    lines.push(format!(in alloc; "order {order}\n")?.into_bytes())?;
    lines.push(format!(in alloc; "degree {degree}\n")?.into_bytes())?;
    lines.push(ranks_line(alloc, &report.ranks)?)?;
    lines.push(format!(in alloc; "generators {generators}\n")?.into_bytes())?;
    lines.push(format!(in alloc; "relations {relations}\n")?.into_bytes())?;
    lines.push(format!(in alloc; "subgroups {subgroups}\n")?.into_bytes())?;
    lines.push(verdict_line(alloc, report.complete())?)?;
    Ok(lines)
}

// The bytes of the lines, one after another.
fn joined(alloc: Global, lines: &[Vec<u8>]) -> Result<Vec<u8>, AllocError>
    ensures { IfOk result (λ bytes. bytes.items ≡ concat (map (λ l. l.items) lines.now)) }
{
    let mut bytes = Vec::new(alloc);
    for line in lines {
        bytes.extend_from_slice(line)?;
    }
    Ok(bytes)
}

/// The answer to `ring`, as the bytes of its lines.
pub fn write_report(alloc: Global, r: &Report) -> Result<Vec<u8>, Memory>
    ensures { IfOk result (λ bytes. bytes.items ≡ report_text r.now) }
{
    let lines = report_lines(alloc, r)?;
    Ok(joined(alloc, &lines)?)
}
