//! Presentations that are loaded and accepted.

use coho_io::MemFiles;
use coho_steps::{accept, load};
use coho_words::GREATEST_SAMPLE;
use pc_group::Consistent;
use sample_groups::sample_presentation;
use std::alloc::Global;
use std::process::Abort;
use std::test::Fail;

/// The product that a number names, which is consistent.
pub(crate) fn product_of(rt: &impl Abort, alloc: Global, k: u32) -> Result<Consistent, Fail> {
    assert!(rt; k <= GREATEST_SAMPLE);
    match accept(alloc, sample_presentation(alloc, k)?) {
        Ok(consistent) => Ok(consistent),
        Err(_) => panic!(rt; "no group"),
    }
}

#[test]
fn loads_a_group(rt: HostRuntime) -> Result<(), Fail> {
    let mut files = MemFiles::new(rt.alloc());
    files.put("t", b"pgroup 1\nprime 3\ngens 2\n")?;
    match load(rt.alloc(), &mut files, "t") {
        Ok(consistent) => assert_eq!(rt; consistent.group().order(), 9),
        Err(_) => panic!(rt; "no group"),
    }
    Ok(())
}
