ghost use Rattle.std.specs.Prelude.{◌≡◌, ◌+◌, ◌≤◌, ◌<◌, ◌++◌, ◌∷◌, [], codes, flat_map, length, IfOk};
ghost use Rattle.std.specs.Prelude.{string_bytes};
ghost use Rattle.min_res.specs.Values.{boundary_of};
ghost use Rattle.coho_steps.specs.Lines.{after_space, line, contents};
ghost use Rattle.stage_answers.specs.Answers.{group_lines, layers_line, rows_words, stage_line};
ghost use Rattle.stage_answers.specs.Stages.{HasRows, summary};
ghost use Rattle.stage_answers.specs.Resolving.{TellsStage, TellsStages};

use limits::GREATEST_DEGREE;
use min_res::{Resolution, Stage};
use pc_group::Consistent;
use std::alloc::{AllocError, Global};

// The line with the dimensions of the radical layers.
fn layers_line(alloc: Global, dimensions: &[usize]) -> Result<String, AllocError>
    ensures { IfOk result (λ text. string_bytes text ≡ layers_line dimensions.now) }
{
    let mut text = String::from_str(alloc, "layers")?;
    for dimension in dimensions {
        let word = format!(in alloc; " {dimension}")?;
        text.push_str(&word)?;
    }
    text.push('\n')?;
    Ok(text)
}

/// The lines of the answer to `group`.
pub fn group_lines(
    alloc: Global,
    consistent: &Consistent,
    dimensions: &[usize],
) -> Result<Vec<Vec<u8>>, AllocError>
    ensures { IfOk result
        (λ lines. contents lines.items ≡ group_lines consistent.now dimensions.now) }
{
    let presentation = consistent.presentation();
    let prime = u32::from(presentation.prime().value());
    let gens = presentation.gens();
    let order = prime.pow(gens);
    let mut lines = Vec::new(alloc);
    lines.push(format!(in alloc; "prime {prime}\n")?.into_bytes())?;
    lines.push(format!(in alloc; "gens {gens}\n")?.into_bytes())?;
    lines.push(format!(in alloc; "order {order}\n")?.into_bytes())?;
    lines.push(layers_line(alloc, dimensions)?.into_bytes())?;
    Ok(lines)
}

// The places of the rows of the boundary of a stage above degree 0.
fn places(alloc: Global, stage: &Stage) -> Result<String, AllocError>
    requires rows { stage.now.rank ≡ length (boundary_of stage.now).positions }
    requires above_zero { 0 < stage.now.degree }
    ensures { IfOk result (λ text. string_bytes text
        ≡ codes " rows" ++ flat_map (λ i. after_space (i + 1)) (boundary_of stage.now).positions) }
{
    let mut text = String::from_str(alloc, " rows")?;
    for i in 0..stage.rank() {
        let place = u64::from(stage.position(i)) + 1;
        let word = format!(in alloc; " {place}")?;
        text.push_str(&word)?;
    }
    Ok(text)
}

// The same, and nothing for the stage of degree 0.
#[tactic(auto, using(crate::proofs::StageRows::no_rows_at_zero, crate::proofs::StageRows::rows_above))]
fn rows_words(alloc: Global, stage: &Stage) -> Result<String, AllocError>
    requires { HasRows stage.now }
    ensures { IfOk result (λ text. string_bytes text ≡ rows_words (summary stage.now).rows) }
{
    if stage.degree() == 0 {
        Ok(String::new(alloc))
    } else {
        places(alloc, stage)
    }
}

// The line of a stage.
fn stage_line(alloc: Global, stage: &Stage) -> Result<String, AllocError>
    requires { HasRows stage.now }
    ensures { IfOk result (λ text. string_bytes text ≡ stage_line (summary stage.now)) }
{
    let degree = stage.degree();
    let rank = stage.rank();
    let kernel = stage.kernel().rows();
    let rows = rows_words(alloc, stage)?;
    format!(in alloc; "stage {degree} rank {rank} kernel {kernel}{rows}\n")
}

// The line of the stage of degree d.
fn line_at(alloc: Global, resolution: &Resolution, d: u32) -> Result<String, AllocError>
    requires degree { d ≤ resolution.now.last }
    ensures { IfOk result (λ text. TellsStage resolution.now.group d (string_bytes text)) }
{
    stage_line(alloc, resolution.stage_at(d))
}

/// The lines of the answer to `resolve`.
#[tactic(auto, using(crate::proofs::StageRows::no_lines))]
pub fn stage_lines(alloc: Global, resolution: &Resolution) -> Result<Vec<Vec<u8>>, AllocError>
    requires few { resolution.now.last ≤ GREATEST_DEGREE }
    ensures { IfOk result (λ lines. TellsStages resolution.now.group (resolution.now.last + 1)
        (contents lines.items)) }
{
    let count = resolution.last() + 1;
    let mut lines = Vec::new(alloc);
    for d in 0..count {
        lines.push(line_at(alloc, resolution, d)?.into_bytes())?;
    }
    Ok(lines)
}

/// The line of the answer to `check`.
pub fn record_lines(alloc: Global, count: u32) -> Result<Vec<Vec<u8>>, AllocError>
    ensures { IfOk result (λ lines. contents lines.items ≡ line (codes "records ") count ∷ []) }
{
    let mut lines = Vec::new(alloc);
    lines.push(format!(in alloc; "records {count}\n")?.into_bytes())?;
    Ok(lines)
}
