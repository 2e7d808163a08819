ghost use Rattle.std.specs.Prelude.{None};
ghost use Rattle.std.specs.Io.{ReadsAtMost};

use crate::interrupted::{TRIES, interrupted, is_interrupted};
use crate::streams::write_whole;
use crate::{Fault, Files};
use std::io::{Read, Seek, SeekFrom};
use std::{fs, io};

/// The real files. It tells no bytes, and its one count of each kind is that of every path.
#[derive(Drop)]
pub struct DiskFiles<'a, R: fs::Files> {
    runtime: &'a R,
    read_faults: u64,
    write_faults: u64,
}

impl<'a, R: fs::Files> DiskFiles<'a, R> {
    /// The files of a runtime, of which no call has failed.
    pub fn new(runtime: &'a R) -> DiskFiles<'a, R> {
        DiskFiles {
            runtime,
            read_faults: 0,
            write_faults: 0,
        }
    }
}

// Reads once from a place on.
fn read_once<R: fs::Files>(runtime: &R, path: &str, at: u64, buf: &mut [u8]) -> io::Result<usize>
    ensures bound { ReadsAtMost result buf.new }
{
    let mut file = fs::open(runtime, path)?;
    file.seek(SeekFrom::Start(at))?;
    file.read(buf)
}

// Reads from a place on, and tries again where a signal broke the read off.
fn read_from<R: fs::Files>(runtime: &R, path: &str, at: u64, buf: &mut [u8]) -> io::Result<usize>
    ensures bound { ReadsAtMost result buf.new }
{
    for _ in 0..TRIES {
        match read_once(runtime, path, at, buf) {
            Err(error) if is_interrupted(&error) => {}
            answer => return answer,
        }
    }
    Err(interrupted())
}

// Makes a file empty, and tries again where a signal broke that off.
fn create_empty<R: fs::Files>(runtime: &R, path: &str) -> io::Result<()> {
    for _ in 0..TRIES {
        match fs::create(runtime, path) {
            Ok(_) => return Ok(()),
            Err(error) if is_interrupted(&error) => {}
            Err(error) => return Err(error),
        }
    }
    Err(interrupted())
}

// Opens a file to append to it, and tries again where a signal broke that off.
fn open_behind<R: fs::Files>(runtime: &R, path: &str) -> io::Result<R::File> {
    for _ in 0..TRIES {
        match fs::OpenOptions::new()
            .append(true)
            .create(true)
            .open(runtime, path)
        {
            Err(error) if is_interrupted(&error) => {}
            answer => return answer,
        }
    }
    Err(interrupted())
}

// Puts a piece behind a file, and makes one that is missing.
fn append_to<R: fs::Files>(runtime: &R, path: &str, piece: &[u8]) -> io::Result<()> {
    let mut file = open_behind(runtime, path)?;
    write_whole(&mut file, piece)
}

impl<'a, R: fs::Files> Files for DiskFiles<'a, R> {
    ghost content = { λ _. None };

    ghost read_faults = { λ s _. s.read_faults };

    ghost write_faults = { λ s _. s.write_faults };

    fn read_at(&mut self, path: &str, at: u64, buf: &mut [u8]) -> Result<usize, Fault> {
        match read_from(self.runtime, path, at, buf) {
            Ok(count) => Ok(count),
            Err(_) => {
                self.read_faults = self.read_faults.saturating_add(1);
                Err(Fault::Failed)
            }
        }
    }

    fn create(&mut self, path: &str) -> Result<(), Fault> {
        match create_empty(self.runtime, path) {
            Ok(()) => Ok(()),
            Err(_) => {
                self.write_faults = self.write_faults.saturating_add(1);
                Err(Fault::Failed)
            }
        }
    }

    fn append(&mut self, path: &str, piece: &[u8]) -> Result<(), Fault> {
        match append_to(self.runtime, path, piece) {
            Ok(()) => Ok(()),
            Err(_) => {
                self.write_faults = self.write_faults.saturating_add(1);
                Err(Fault::Failed)
            }
        }
    }

    fn read_faults(&self, _path: &str) -> u64 {
        self.read_faults
    }

    fn write_faults(&self, _path: &str) -> u64 {
        self.write_faults
    }
}
