//! Words that are read.

use crate::runs::words_of;
use coho_words::{Command, WordsFault, read_words};
use std::alloc::Global;
use std::process::Abort;
use std::test::Fail;

fn asks_for_a_ring(rt: &impl Abort, alloc: Global) -> Result<(), Fail> {
    let words = words_of(alloc, &["ring", "--save", "b", "t", "3"])?;
    match read_words(alloc, &words) {
        Ok(Command::Ring("t", 3, files)) => {
            assert!(rt; files.from.is_none());
            assert_eq!(rt; files.save, Some("b"));
        }
        _ => panic!(rt; "another command"),
    }
    Ok(())
}

fn asks_for_a_value(rt: &impl Abort, alloc: Global) -> Result<(), Fail> {
    let words = words_of(alloc, &["value", "t", "2", "1", "5", "6"])?;
    match read_words(alloc, &words) {
        Ok(Command::Value("t", 1, elements)) => {
            assert_eq!(rt; elements.as_slice(), [5, 6].as_slice())
        }
        _ => panic!(rt; "another command"),
    }
    Ok(())
}

#[test]
fn reads_words(rt: HostRuntime) -> Result<(), Fail> {
    asks_for_a_ring(&rt, rt.alloc())?;
    asks_for_a_value(&rt, rt.alloc())
}

#[test]
fn refuses_words(rt: HostRuntime) -> Result<(), Fail> {
    let words = words_of(rt.alloc(), &["ring", "t", "03"])?;
    match read_words(rt.alloc(), &words) {
        Err(WordsFault::Refused) => {}
        _ => panic!(rt; "words were read"),
    }
    Ok(())
}
