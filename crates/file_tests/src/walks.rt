use coho_io::{Files, MemFiles};
use group_algebra::Algebra;
use group_table::{Memory, Prime};
use min_res::Resolution;
use pc_group::{Consistent, Presentation, check};
use sha2::{Digest, Sha256};
use stage_walk::*;
use std::alloc::Global;
use std::process::Abort;
use std::test::Fail;

/// The number of bytes of the file of the group of two elements to degree 3: 40 of the header, and 46 of each
/// record.
const WHOLE: usize = 178;

/// The presentation of the group of two elements.
fn two_elements(rt: &impl Abort, alloc: Global) -> Result<Consistent, Fail> {
    match check(alloc, Presentation::new(alloc, Prime::P2, 1)?) {
        Ok(consistent) => Ok(consistent),
        Err(_) => panic!(rt; "no group"),
    }
}

/// The number of stages to degree 3 that are computed, with this file to take stages from.
fn computed(
    rt: &impl Abort,
    alloc: Global,
    files: &mut MemFiles,
    from: Option<&str>,
    save: Option<&str>,
) -> Result<Result<u32, StagesFault>, Fail> {
    let consistent = two_elements(rt, alloc)?;
    let algebra = Algebra::build(alloc, consistent.group())?;
    match stages(alloc, &consistent, algebra, 3, from, save, files) {
        Ok(resolution) => Ok(Ok(resolution.computed())),
        Err(fault) => Ok(Err(fault)),
    }
}

/// The file of the group of two elements to degree 3.
fn whole_file(rt: &impl Abort, alloc: Global) -> Result<[u8; WHOLE], Fail> {
    let mut files = MemFiles::new(alloc);
    assert_eq!(rt; computed(rt, alloc, &mut files, None, Some("b"))?, Ok(3));
    let mut whole = [0; WHOLE];
    match files.get("b") {
        Some(bytes) if bytes.len() == WHOLE => whole.copy_from_slice(bytes),
        _ => panic!(rt; "another length"),
    }
    Ok(whole)
}

/// What comes of these bytes as the file to take stages from.
fn taken(rt: &impl Abort, alloc: Global, bytes: &[u8]) -> Result<Result<u32, StagesFault>, Fail> {
    let mut files = MemFiles::new(alloc);
    files.put("a", bytes)?;
    let taken = computed(rt, alloc, &mut files, Some("a"), Some("b"))?;
    if taken.is_err() {
        assert!(rt; files.get("b").is_none());
    }
    Ok(taken)
}

/// How many bytes of the file there are, and how many stages are left to compute.
const FRONTS: [(usize, u32); 7] = [
    (0, 3),
    (39, 3),
    (40, 3),
    (86, 2),
    (131, 2),
    (177, 1),
    (178, 0),
];

fn expect_left(
    rt: &impl Abort,
    alloc: Global,
    whole: &[u8; WHOLE],
    len: usize,
    left: u32,
) -> Result<(), Fail> {
    assert!(rt; len <= whole.len());
    assert_eq!(rt; taken(rt, alloc, &whole[..len])?, Ok(left), "{len} bytes");
    Ok(())
}

#[test]
fn takes_whole_records(rt: HostRuntime) -> Result<(), Fail> {
    let whole = whole_file(&rt, rt.alloc())?;
    for (len, left) in FRONTS {
        expect_left(&rt, rt.alloc(), &whole, len, left)?;
    }
    Ok(())
}

fn expect_refused(
    rt: &impl Abort,
    alloc: Global,
    whole: [u8; WHOLE],
    at: usize,
    fault: StagesFault,
) -> Result<(), Fail> {
    let mut bytes = whole;
    assert!(rt; at < bytes.len());
    bytes[at] ^= 1;
    assert_eq!(rt; taken(rt, alloc, &bytes)?, Err(fault), "byte {at}");
    Ok(())
}

#[test]
fn refuses_altered_bytes(rt: HostRuntime) -> Result<(), Fail> {
    let alloc = rt.alloc();
    let whole = whole_file(&rt, alloc)?;
    expect_refused(&rt, alloc, whole, 0, StagesFault::Header)?;
    expect_refused(&rt, alloc, whole, 8, StagesFault::Presentation)?;
    expect_refused(&rt, alloc, whole, 51, StagesFault::Record { number: 1 })?;
    expect_refused(&rt, alloc, whole, 137, StagesFault::Record { number: 3 })
}

/// The file with another entry in the kernel of record 3, and the digest of its altered bytes.
fn with_another_entry(whole: [u8; WHOLE]) -> [u8; WHOLE] {
    let mut bytes = whole;
    bytes[142] ^= 1;
    let digest = Sha256::digest(&bytes[136..146]);
    bytes[146..].copy_from_slice(&digest);
    bytes
}

#[test]
fn refuses_an_altered_record_with_its_digest(rt: HostRuntime) -> Result<(), Fail> {
    let alloc = rt.alloc();
    let bytes = with_another_entry(whole_file(&rt, alloc)?);
    assert_eq!(rt;
        taken(&rt, alloc, &bytes)?,
        Err(StagesFault::Record { number: 3 })
    );
    Ok(())
}

/// Whether it has the header and five bytes of record 1.
fn is_front(bytes: &[u8], whole: &[u8; WHOLE]) -> bool {
    bytes == &whole[..45]
}

/// The third call is the append of record 1: it takes five bytes.
#[test]
fn keeps_what_was_written(rt: HostRuntime) -> Result<(), Fail> {
    let alloc = rt.alloc();
    let whole = whole_file(&rt, alloc)?;
    let mut files = MemFiles::new(alloc);
    files.fail_at(3, 5)?;
    assert_eq!(rt;
        computed(&rt, alloc, &mut files, None, Some("b"))?,
        Err(StagesFault::Write)
    );
    match files.get("b") {
        Some(bytes) => assert!(rt; is_front(bytes, &whole)),
        None => panic!(rt; "no file"),
    }
    let missing = computed(&rt, alloc, &mut files, Some("a"), None)?;
    assert_eq!(rt; missing, Err(StagesFault::Read));
    Ok(())
}
