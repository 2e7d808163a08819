ghost use Rattle.std.specs.Prelude.{◌≡◌, ◌≤◌, [], length, IfOk, OnOk, OnErr, IsErrOf, None, Some};
ghost use Rattle.std.specs.Prelude.{MatchOption};
ghost use Rattle.std.specs.FinMap.{get};
ghost use Rattle.coho_io.specs.Content.{with_file, with_piece, ReadsAt, file};
ghost use Rattle.coho_io.specs.NoFaultFiles.{content_within};

use crate::mem_files::copy_at;
use crate::{Fault, Files, MemFiles};
use group_table::Memory;
use std::alloc::Global;
use std::marker::Model;

/// Files in memory of which no call fails. A path that was not put is an empty file. They are seen as the
/// list of their paths and bytes.
#[derive(Drop)]
pub struct NoFaultFiles {
    files: MemFiles,
}

impl Model for NoFaultFiles {
    ghost use Rattle.std.specs.Prelude.{List, ℕ, map};
    ghost use Rattle.coho_io.specs.MemFiles.{named};

    ghost Value = { List (List ℕ × List ℕ) };

    ghost view = { λ s. map named s.files.files };
}

impl NoFaultFiles {
    /// Files that are all empty.
    pub fn new(alloc: Global) -> NoFaultFiles
        ensures { result ≡ [] }
    {
        NoFaultFiles {
            files: MemFiles::new(alloc),
        }
    }

    /// The bytes that were put or written under a path.
    pub fn get(&self, path: &str) -> Option<&[u8]>
        ensures { MatchOption result
            (get (content_within self.now).files path.now ≡ None)
            (λ bytes. get (content_within self.now).files path.now ≡ Some bytes.now) }
    {
        self.files.get(path)
    }

    /// Puts bytes under a path, in the place of those that were there. Want of memory changes nothing.
    pub fn put(&mut self, path: &str, bytes: &[u8]) -> Result<(), Memory>
        ensures ok { OnOk result
            (content_within self.new ≡ with_file (content_within self.old) path.now bytes.now) }
        ensures err { OnErr result (self.new ≡ self.old) }
    {
        self.files.put(path, bytes)
    }
}

impl Files for NoFaultFiles {
    ghost content = { λ s. Some (content_within s) };

    ghost read_faults = { λ _ _. 0 };

    ghost write_faults = { λ _ _. 0 };

    fn read_at(&mut self, path: &str, at: u64, buf: &mut [u8]) -> Result<usize, Fault>
        ensures bound { IfOk result (λ k. k ≤ length buf.new) }
        ensures bytes { IfOk result (λ k. ReadsAt (file (content_within self.old) path.now) at buf.new k) }
        ensures ok { OnErr result ⊥ }
        ensures same { self.new ≡ self.old }
    {
        Ok(copy_at(self.files.bytes_of(path), at, buf))
    }

    fn create(&mut self, path: &str) -> Result<(), Fault>
        ensures ok { OnOk result
            (content_within self.new ≡ with_file (content_within self.old) path.now []) }
        ensures failed { IsErrOf result Fault.Failed → ⊥ }
        ensures err { OnErr result (self.new ≡ self.old) }
    {
        self.files.put(path, &[])?;
        Ok(())
    }

    fn append(&mut self, path: &str, piece: &[u8]) -> Result<(), Fault>
        ensures ok { OnOk result
            (content_within self.new ≡ with_piece (content_within self.old) path.now piece.now) }
        ensures failed { IsErrOf result Fault.Failed → ⊥ }
        ensures err { OnErr result (self.new ≡ self.old) }
    {
        self.files.extend(path, piece)?;
        Ok(())
    }

    fn read_faults(&self, _path: &str) -> u64 {
        0
    }

    fn write_faults(&self, _path: &str) -> u64 {
        0
    }
}
