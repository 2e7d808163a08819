//! Runs over files and sinks in memory.

use coho_io::{MemFiles, MemSink};
use coho_run::run;
use coho_steps::Status;
use std::alloc::{AllocError, Global};
use std::test::Fail;

/// How a run ended, and what it wrote.
#[derive(Drop)]
pub(crate) struct Ended {
    pub(crate) status: Status,
    pub(crate) out: MemSink,
    pub(crate) err: MemSink,
}

/// The words of a run.
pub(crate) fn words_of(alloc: Global, texts: &[&str]) -> Result<Vec<String>, AllocError> {
    let mut words = Vec::new(alloc);
    for text in texts {
        words.push(String::from_str(alloc, text)?)?;
    }
    Ok(words)
}

/// A run on these words.
pub(crate) fn run_words(
    alloc: Global,
    files: &mut MemFiles,
    texts: &[&str],
) -> Result<Ended, AllocError> {
    let words = words_of(alloc, texts)?;
    let mut out = MemSink::new(alloc);
    let mut err = MemSink::new(alloc);
    let status = run(alloc, &words, files, &mut out, &mut err);
    Ok(Ended { status, out, err })
}

#[test]
fn describes_a_group(rt: HostRuntime) -> Result<(), Fail> {
    let mut files = MemFiles::new(rt.alloc());
    files.put("t", b"pgroup 1\nprime 3\ngens 2\n")?;
    let ended = run_words(rt.alloc(), &mut files, &["group", "t"])?;
    assert_eq!(rt; ended.status, Status::Answered);
    assert_eq!(rt;
        ended.out.bytes(),
        b"prime 3\ngens 2\norder 9\nlayers 1 2 3 2 1\n".as_slice()
    );
    assert_eq!(rt; ended.err.bytes(), b"".as_slice());
    Ok(())
}

const CODES: [(Status, u8); 9] = [
    (Status::Answered, 0),
    (Status::Text, 1),
    (Status::Usage, 2),
    (Status::Inconsistent, 3),
    (Status::Limit, 4),
    (Status::Read, 5),
    (Status::Write, 6),
    (Status::Stage, 7),
    (Status::Memory, 8),
];

#[test]
fn statuses_have_numbers(rt: HostRuntime) {
    for (status, code) in CODES {
        assert_eq!(rt; status.code(), code);
    }
}
