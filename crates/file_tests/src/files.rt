use coho_io::*;
use std::alloc::Global;
use std::fs;
use std::process::Abort;
use std::test::Fail;

/// Reads from a place on into a buffer of four bytes, and shows what came.
fn read_four<F: Files>(files: &mut F, path: &str, at: u64) -> (Result<usize, Fault>, [u8; 4]) {
    let mut buf = [b'.'; 4];
    let answer = files.read_at(path, at, &mut buf);
    (answer, buf)
}

/// Reads from a place on, and looks at the answer and the buffer.
fn expect_read<F: Files>(
    rt: &impl Abort,
    files: &mut F,
    path: &str,
    at: u64,
    count: usize,
    bytes: &[u8; 4],
) {
    let (answer, buf) = read_four(files, path, at);
    assert_eq!(rt; answer, Ok(count));
    assert_eq!(rt; buf.as_slice(), bytes.as_slice());
}

#[test]
fn disk_files_read_a_real_file_and_count_faults(rt: HostRuntime) -> Result<(), Fail> {
    let path = "coho_io_reads_this_file";
    fs::write(&rt, path, b"abcdef")?;
    let mut files = DiskFiles::new(&rt);
    expect_read(&rt, &mut files, path, 0, 4, b"abcd");
    expect_read(&rt, &mut files, path, 3, 3, b"def.");
    expect_read(&rt, &mut files, path, 6, 0, b"....");
    expect_read(&rt, &mut files, path, 9, 0, b"....");
    assert_eq!(rt; files.read_faults(path), 0);
    fs::remove_file(&rt, path)?;
    assert_eq!(rt; read_four(&mut files, path, 0).0, Err(Fault::Failed));
    assert_eq!(rt; files.read_faults(path), 1);
    assert_eq!(rt; files.read_faults("another path"), 1);
    Ok(())
}

#[test]
fn disk_files_create_and_append_to_a_real_file(rt: HostRuntime) -> Result<(), Fail> {
    let path = "coho_io_writes_this_file";
    fs::write(&rt, path, b"what stood there before")?;
    let mut files = DiskFiles::new(&rt);
    assert_eq!(rt; files.create(path), Ok(()));
    assert_eq!(rt; files.append(path, b"ab"), Ok(()));
    assert_eq!(rt; files.append(path, b"cd"), Ok(()));
    assert_eq!(rt; read_four(&mut files, path, 0), (Ok(4), *b"abcd"));
    assert_eq!(rt; read_four(&mut files, path, 4).0, Ok(0));
    assert_eq!(rt;
        files.append("no such folder/file", b"x"),
        Err(Fault::Failed)
    );
    assert_eq!(rt; files.create("no such folder/file"), Err(Fault::Failed));
    assert_eq!(rt; files.write_faults(path), 2);
    assert_eq!(rt; files.read_faults(path), 0);
    fs::remove_file(&rt, path)?;
    Ok(())
}

#[test]
fn std_sinks_write_to_real_streams(rt: HostRuntime) {
    let mut out = StdSink::stdout(&rt);
    assert_eq!(rt; out.write(b"a line on standard output\n"), Ok(()));
    assert_eq!(rt; out.write(b""), Ok(()));
    assert_eq!(rt; out.faults(), 0);
    let mut err = StdSink::stderr(&rt);
    assert_eq!(rt; err.write(b"a line on standard error\n"), Ok(()));
    assert_eq!(rt; err.faults(), 0);
}

#[test]
fn files_in_memory_are_put_and_had(rt: HostRuntime) -> Result<(), Fail> {
    let mut files = MemFiles::new(rt.alloc());
    assert_eq!(rt; files.get("a"), None);
    files.put("a", b"first")?;
    files.put("b", b"")?;
    files.put("a", b"second")?;
    assert_eq!(rt; files.get("a"), Some(b"second".as_slice()));
    assert_eq!(rt; files.get("b"), Some(b"".as_slice()));
    assert_eq!(rt; files.get("c"), None);
    expect_read(&rt, &mut files, "a", 0, 4, b"seco");
    expect_read(&rt, &mut files, "a", 4, 2, b"nd..");
    expect_read(&rt, &mut files, "a", 6, 0, b"....");
    expect_read(&rt, &mut files, "b", 0, 0, b"....");
    Ok(())
}

const FAILED: Result<(), Fault> = Err(Fault::Failed);

const NOT_READ: Result<usize, Fault> = Err(Fault::Failed);

/// What three reads of a file of two bytes give, where this call is to fail, and the count of faults then.
fn expect_reads(
    rt: &impl Abort,
    alloc: Global,
    listed: u64,
    answers: &[Result<usize, Fault>; 3],
    faults: u64,
) -> Result<(), Fail> {
    let mut files = MemFiles::new(alloc);
    files.put("a", b"xy")?;
    files.fail_at(listed, 0)?;
    for answer in answers {
        assert_eq!(rt; read_four(&mut files, "a", 0).0, *answer);
    }
    assert_eq!(rt; files.read_faults("a"), faults);
    assert_eq!(rt; files.read_faults("b"), 0);
    Ok(())
}

#[test]
fn files_in_memory_fail_at_the_listed_calls(rt: HostRuntime) -> Result<(), Fail> {
    let alloc = rt.alloc();
    expect_reads(&rt, alloc, 1, &[NOT_READ, Ok(2), Ok(2)], 1)?;
    expect_reads(&rt, alloc, 2, &[Ok(2), NOT_READ, Ok(2)], 1)?;
    expect_reads(&rt, alloc, 3, &[Ok(2), Ok(2), NOT_READ], 1)?;
    expect_reads(&rt, alloc, 4, &[Ok(2), Ok(2), Ok(2)], 0)
}

#[test]
fn files_in_memory_count_faults_by_path(rt: HostRuntime) -> Result<(), Fail> {
    let mut files = MemFiles::new(rt.alloc());
    files.put("a", b"x")?;
    assert_eq!(rt; read_four(&mut files, "gone", 0).0, Err(Fault::Failed));
    assert_eq!(rt; files.read_faults("a"), 0);
    assert_eq!(rt; files.read_faults("gone"), 1);
    assert_eq!(rt; files.read_faults("another"), 1);
    files.put("gone", b"y")?;
    files.fail_at(2, 0)?;
    assert_eq!(rt; read_four(&mut files, "gone", 0).0, Err(Fault::Failed));
    assert_eq!(rt;
        files.read_faults("gone"),
        2,
        "it begins with the count of those outside"
    );
    assert_eq!(rt; files.read_faults("another"), 1);
    assert_eq!(rt; files.read_faults("a"), 0);
    Ok(())
}

/// Call `listed` is to fail after it takes some bytes: the three answers, the bytes and the faults then.
struct Failing {
    listed: u64,
    taken: usize,
    answers: [Result<(), Fault>; 3],
    bytes: &'static [u8],
    faults: u64,
}

const SINKS: [Failing; 5] = [
    Failing {
        listed: 1,
        taken: 0,
        answers: [FAILED, Ok(()), Ok(())],
        bytes: b"cdef",
        faults: 1,
    },
    Failing {
        listed: 1,
        taken: 1,
        answers: [FAILED, Ok(()), Ok(())],
        bytes: b"acdef",
        faults: 1,
    },
    Failing {
        listed: 2,
        taken: 1,
        answers: [Ok(()), FAILED, Ok(())],
        bytes: b"abcef",
        faults: 1,
    },
    Failing {
        listed: 3,
        taken: 9,
        answers: [Ok(()), Ok(()), FAILED],
        bytes: b"abcdef",
        faults: 1,
    },
    Failing {
        listed: 4,
        taken: 0,
        answers: [Ok(()), Ok(()), Ok(())],
        bytes: b"abcdef",
        faults: 0,
    },
];

/// Three writes to a sink; of what is listed for a call the last counts.
fn expect_sink(rt: &impl Abort, alloc: Global, case: &Failing) -> Result<(), Fail> {
    let mut sink = MemSink::new(alloc);
    sink.fail_at(case.listed, 7)?;
    sink.fail_at(case.listed, case.taken)?;
    let answers = [sink.write(b"ab"), sink.write(b"cd"), sink.write(b"ef")];
    assert_eq!(rt; answers, case.answers, "{} is listed", case.listed);
    assert_eq!(rt; sink.bytes(), case.bytes, "{} is listed", case.listed);
    assert_eq!(rt; sink.faults(), case.faults, "{} is listed", case.listed);
    Ok(())
}

#[test]
fn a_sink_in_memory_fails_at_the_listed_writes(rt: HostRuntime) -> Result<(), Fail> {
    for case in &SINKS {
        expect_sink(&rt, rt.alloc(), case)?;
    }
    Ok(())
}

/// Creates a file and appends two pieces to it, and shows the three answers.
fn write_twice<F: Files>(files: &mut F, path: &str) -> [Result<(), Fault>; 3] {
    [
        files.create(path),
        files.append(path, b"ab"),
        files.append(path, b"cd"),
    ]
}

/// Whether a file in memory has these bytes.
fn has_bytes(files: &MemFiles, path: &str, bytes: &[u8]) -> bool {
    match files.get(path) {
        Some(found) => found == bytes,
        None => false,
    }
}

const WRITTEN: [Failing; 5] = [
    Failing {
        listed: 1,
        taken: 7,
        answers: [FAILED, Ok(()), Ok(())],
        bytes: b"oldabcd",
        faults: 1,
    },
    Failing {
        listed: 2,
        taken: 1,
        answers: [Ok(()), FAILED, Ok(())],
        bytes: b"acd",
        faults: 1,
    },
    Failing {
        listed: 3,
        taken: 0,
        answers: [Ok(()), Ok(()), FAILED],
        bytes: b"ab",
        faults: 1,
    },
    Failing {
        listed: 3,
        taken: 9,
        answers: [Ok(()), Ok(()), FAILED],
        bytes: b"abcd",
        faults: 1,
    },
    Failing {
        listed: 4,
        taken: 0,
        answers: [Ok(()), Ok(()), Ok(())],
        bytes: b"abcd",
        faults: 0,
    },
];

/// A file that is written beside another.
fn expect_written(rt: &impl Abort, alloc: Global, case: &Failing) -> Result<(), Fail> {
    let mut files = MemFiles::new(alloc);
    files.put("a", b"old")?;
    files.put("b", b"other")?;
    files.fail_at(case.listed, case.taken)?;
    let answers = write_twice(&mut files, "a");
    assert_eq!(rt; answers, case.answers, "{} is listed", case.listed);
    assert!(rt;
        has_bytes(&files, "a", case.bytes),
        "{} is listed",
        case.listed
    );
    assert!(rt; has_bytes(&files, "b", b"other"));
    assert_eq!(rt; files.write_faults("a"), case.faults);
    assert_eq!(rt; files.write_faults("b"), 0);
    assert_eq!(rt; files.read_faults("a"), 0);
    Ok(())
}

#[test]
fn files_in_memory_are_written_up_to_the_listed_call(rt: HostRuntime) -> Result<(), Fail> {
    for case in &WRITTEN {
        expect_written(&rt, rt.alloc(), case)?;
    }
    Ok(())
}

#[test]
fn a_missing_file_is_made_by_an_append(rt: HostRuntime) -> Result<(), Fail> {
    let mut files = MemFiles::new(rt.alloc());
    let answer = files.append("new", b"xy");
    assert_eq!(rt; answer, Ok(()));
    assert!(rt; has_bytes(&files, "new", b"xy"));
    let mut none_fail = NoFaultFiles::new(rt.alloc());
    let answer = none_fail.append("new", b"xy");
    assert_eq!(rt; answer, Ok(()));
    assert_eq!(rt; read_four(&mut none_fail, "new", 0), (Ok(2), *b"xy.."));
    Ok(())
}

#[test]
fn no_call_on_files_without_faults_fails(rt: HostRuntime) -> Result<(), Fail> {
    let mut files = NoFaultFiles::new(rt.alloc());
    assert_eq!(rt; files.get("gone"), None);
    assert_eq!(rt; read_four(&mut files, "gone", 0), (Ok(0), *b"...."));
    files.put("a", b"old")?;
    assert_eq!(rt; read_four(&mut files, "a", 1), (Ok(2), *b"ld.."));
    assert_eq!(rt; write_twice(&mut files, "a"), [Ok(()); 3]);
    assert_eq!(rt; files.get("a"), Some(b"abcd".as_slice()));
    assert_eq!(rt; files.read_faults("a"), 0);
    assert_eq!(rt; files.write_faults("a"), 0);
    let mut sink = NoFaultSink::new(rt.alloc());
    assert_eq!(rt; sink.write(b"ab"), Ok(()));
    assert_eq!(rt; sink.write(b"cd"), Ok(()));
    assert_eq!(rt; sink.bytes(), b"abcd".as_slice());
    assert_eq!(rt; sink.faults(), 0);
    Ok(())
}
