//! Answers on the group of two elements.

use crate::loads::product_of;
use coho_io::MemFiles;
use coho_words::StageFiles;
use ring_answers::{answer_ring, answer_sample, answer_value};
use stage_answers::{answer_check, answer_group, answer_resolve};
use std::alloc::Global;
use std::process::Abort;
use std::test::Fail;

// The lines are these.
fn are_lines(rt: &impl Abort, lines: &[Vec<u8>], told: &[&str]) {
    assert_eq!(rt; lines.len(), told.len());
    for i in 0..told.len() {
        if i < lines.len() {
            assert_eq!(rt; lines[i].as_slice(), told[i].as_bytes());
        }
    }
}

#[test]
fn answers_group(rt: HostRuntime) -> Result<(), Fail> {
    let consistent = product_of(&rt, rt.alloc(), 0)?;
    match answer_group(rt.alloc(), &consistent) {
        Ok(lines) => are_lines(
            &rt,
            &lines,
            &["prime 2\n", "gens 1\n", "order 2\n", "layers 1 1\n"],
        ),
        Err(_) => panic!(rt; "no answer"),
    }
    Ok(())
}

#[test]
fn answers_resolve(rt: HostRuntime) -> Result<(), Fail> {
    let consistent = product_of(&rt, rt.alloc(), 0)?;
    match answer_resolve(rt.alloc(), &consistent, 1) {
        Ok(lines) => are_lines(
            &rt,
            &lines,
            &[
                "stage 0 rank 1 kernel 1\n",
                "stage 1 rank 1 kernel 1 rows 1\n",
            ],
        ),
        Err(_) => panic!(rt; "no answer"),
    }
    Ok(())
}

// The number of lines of the answer to `ring`, of which the stages are saved under `b`.
fn ring_lines(rt: &impl Abort, alloc: Global, files: &mut MemFiles) -> Result<usize, Fail> {
    let consistent = product_of(rt, alloc, 0)?;
    let named = StageFiles {
        from: None,
        save: Some("b"),
    };
    match answer_ring(alloc, &consistent, 3, named, files) {
        Ok(lines) => Ok(lines.len()),
        Err(_) => panic!(rt; "no answer"),
    }
}

#[test]
fn answers_ring_and_check(rt: HostRuntime) -> Result<(), Fail> {
    let mut files = MemFiles::new(rt.alloc());
    assert_eq!(rt; ring_lines(&rt, rt.alloc(), &mut files)?, 15);
    let consistent = product_of(&rt, rt.alloc(), 0)?;
    match answer_check(rt.alloc(), &consistent, "b", &mut files) {
        Ok(lines) => are_lines(&rt, &lines, &["records 3\n"]),
        Err(_) => panic!(rt; "no answer"),
    }
    Ok(())
}

#[test]
fn answers_value(rt: HostRuntime) -> Result<(), Fail> {
    let consistent = product_of(&rt, rt.alloc(), 0)?;
    match answer_value(rt.alloc(), &consistent, 1, &[1, 1]) {
        Ok(lines) => are_lines(&rt, &lines, &["value 1\n"]),
        Err(_) => panic!(rt; "no answer"),
    }
    Ok(())
}

#[test]
fn answers_sample(rt: HostRuntime) -> Result<(), Fail> {
    let consistent = product_of(&rt, rt.alloc(), 0)?;
    match answer_sample(rt.alloc(), &consistent, 0) {
        Ok(lines) => are_lines(
            &rt,
            &lines,
            &[
                "sample 0\n",
                "prime 2\n",
                "order 2\n",
                "degree 4\n",
                "ranks 1 1 1 1 1\n",
                "generators 1\n",
                "relations 0\n",
                "subgroups 1\n",
                "verdict complete\n",
            ],
        ),
        Err(_) => panic!(rt; "no answer"),
    }
    Ok(())
}
