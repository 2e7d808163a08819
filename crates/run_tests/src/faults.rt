//! Faults of files and sinks, and where they stop a run.

use crate::runs::{run_words, words_of};
use coho_io::{MemFiles, MemSink};
use coho_run::run;
use coho_steps::Status;
use std::alloc::Global;
use std::process::Abort;
use std::test::Fail;

// A text is read in pieces of 4,096 bytes until its length is past the limit, so no 18th read is tried.
#[test]
fn stops_reading_past_the_limit(rt: HostRuntime) -> Result<(), Fail> {
    let mut files = MemFiles::new(rt.alloc());
    files.put("t", &[b'x'; 70_000])?;
    files.fail_at(18, 0)?;
    let ended = run_words(rt.alloc(), &mut files, &["group", "t"])?;
    assert_eq!(rt; ended.status, Status::Limit);
    Ok(())
}

// The third write takes so many bytes and fails.
fn stops_at_the_third_write(
    rt: &impl Abort,
    alloc: Global,
    taken: usize,
    bytes: &[u8],
) -> Result<(), Fail> {
    let mut files = MemFiles::new(alloc);
    files.put("t", b"pgroup 1\nprime 3\ngens 2\n")?;
    let words = words_of(alloc, &["group", "t"])?;
    let mut out = MemSink::new(alloc);
    out.fail_at(3, taken)?;
    let mut err = MemSink::new(alloc);
    let status = run(alloc, &words, &mut files, &mut out, &mut err);
    assert_eq!(rt; status, Status::Write);
    assert_eq!(rt; out.bytes(), bytes);
    assert_eq!(rt; err.bytes(), b"coho: write failed\n".as_slice());
    Ok(())
}

#[test]
fn stops_at_a_failed_write(rt: HostRuntime) -> Result<(), Fail> {
    stops_at_the_third_write(&rt, rt.alloc(), 0, b"prime 3\ngens 2\n")?;
    stops_at_the_third_write(&rt, rt.alloc(), 3, b"prime 3\ngens 2\nord")
}

#[test]
fn keeps_the_status_of_a_line_that_is_not_told(rt: HostRuntime) -> Result<(), Fail> {
    let alloc = rt.alloc();
    let mut files = MemFiles::new(alloc);
    let mut err = MemSink::new(alloc);
    err.fail_at(1, 6)?;
    let status = run(alloc, &[], &mut files, &mut MemSink::new(alloc), &mut err);
    assert_eq!(rt; status, Status::Usage);
    assert_eq!(rt; err.bytes(), b"coho: ".as_slice());
    Ok(())
}

// The words, the number of the call that fails, the status, and the line on err.
const TURNS: [(&[&str], u64, Status, &str); 4] = [
    (
        &["ring", "f", "3", "--from", "c"],
        3,
        Status::Inconsistent,
        "coho: inconsistent: fixed 1\n",
    ),
    (
        &["ring", "t", "3", "--from", "a", "--save", "b"],
        5,
        Status::Stage,
        "coho: stage file refused: header\n",
    ),
    (
        &["ring", "t", "3", "--from", "c", "--save", "b"],
        4,
        Status::Read,
        "coho: read failed: c\n",
    ),
    (
        &["ring", "t", "3", "--save", "b"],
        3,
        Status::Write,
        "coho: write failed: b\n",
    ),
];

// The files: `t` has a presentation and `f` an inconsistent one, `a` is no stage file, and there is no `c`.
fn files_of_turns(alloc: Global) -> Result<MemFiles, Fail> {
    let mut files = MemFiles::new(alloc);
    files.put("t", b"pgroup 1\nprime 2\ngens 1\n")?;
    files.put("f", b"pgroup 1\nprime 2\ngens 3\ng1^2 = g2\n[g2,g1] = g3\n")?;
    files.put("a", b"x")?;
    Ok(files)
}

// The first refusal in the order of the steps is told, and nothing is saved.
#[test]
fn refuses_in_turn(rt: HostRuntime) -> Result<(), Fail> {
    for (texts, failing, status, line) in TURNS {
        let mut files = files_of_turns(rt.alloc())?;
        files.fail_at(failing, 0)?;
        let ended = run_words(rt.alloc(), &mut files, texts)?;
        assert_eq!(rt; ended.status, status, "{texts:?}");
        assert_eq!(rt; ended.err.bytes(), line.as_bytes(), "{texts:?}");
        assert!(rt; files.get("b").is_none(), "{texts:?}");
    }
    Ok(())
}
