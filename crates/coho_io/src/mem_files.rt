ghost use Rattle.std.specs.Prelude.{◌≡◌, ◌≤◌, ℕ, length, IfOk, OnOk, OnErr, IsSome, IsNone, IfSome, IsErrOf};
ghost use Rattle.std.specs.Prelude.{None, Some, MatchOption};
ghost use Rattle.std.specs.List.{position};
ghost use Rattle.coho_io.specs.Causes.{Rose, NoneFell};
ghost use Rattle.coho_io.specs.Calls.{taken_at};
ghost use Rattle.coho_io.specs.Content.{file, ReadsAt, or_empty, with_file, with_piece};
ghost use Rattle.coho_io.specs.Counts.{count_of};
ghost use Rattle.coho_io.specs.Stored.{entry_of};
ghost use Rattle.coho_io.specs.MemFiles.{is_at, bytes_at, content_of, counts_at, fault_count, read_count};
ghost use Rattle.coho_io.specs.MemFiles.{write_count, taken_next, MustFail, no_files, listed, counted};
ghost use Rattle.coho_io.specs.MemFiles.{fault_at, failed_read, after_put, extended, created, failed_create};
ghost use Rattle.coho_io.specs.MemFiles.{appended, cut_append};

use crate::calls::taken_at;
use crate::counts::{Counts, Kind};
use crate::{Fault, Files};
use group_table::Memory;
use std::alloc::Global;
use std::marker::Model;

// A file, and how often calls on it have failed.
#[derive(Drop)]
struct MemFile {
    path: String,
    bytes: Vec<u8>,
    faults: Counts,
}

/// Files in memory, with a list of the calls that are to fail. A path that was not put is a missing file.
#[derive(Drop)]
pub struct MemFiles {
    alloc: Global,
    files: Vec<MemFile>,
    outside: Counts,
    calls: u64,
    failing: Vec<(u64, usize)>,
}

impl Model for MemFiles {
    ghost use Rattle.std.specs.Prelude.{map};
    ghost use Rattle.coho_io.specs.MemFiles.{FilesState};
    ghost use Rattle.coho_io.specs.Stored.{entry_of};

    ghost Value = { FilesState };

    ghost view = { λ s. record {
      files = map entry_of s.files.items;
      outside = s.outside;
      calls = s.calls;
      failing = s.failing.items;
    } };
}

// The index of a path's file.
fn find_file(files: &[MemFile], path: &str) -> Option<usize>
    ensures { result ≡ position (λ f. is_at path.now (entry_of f)) files.now }
{
    files.iter().position(|f| path == f.path.as_str())
}

// Copies the bytes from a place on, as many as there is room for.
pub(crate) fn copy_at(bytes: &[u8], at: u64, buf: &mut [u8]) -> usize
    ensures bound { result ≤ length buf.new }
    ensures bytes { ReadsAt (Some bytes.now) at buf.new result }
{
    if at >= bytes.len() as u64 {
        return 0;
    }
    let rest = &bytes[at as usize..];
    let count = rest.len().min(buf.len());
    buf[..count].copy_from_slice(&rest[..count]);
    count
}

impl MemFiles {
    /// No files. All calls succeed, but for reads of missing files.
    pub fn new(alloc: Global) -> MemFiles
        ensures { result ≡ no_files }
    {
        MemFiles {
            alloc,
            files: Vec::new(alloc),
            outside: Counts::none(),
            calls: 0,
            failing: Vec::new(alloc),
        }
    }

    /// The bytes of a file, where it is there.
    pub fn get(&self, path: &str) -> Option<&[u8]>
        ensures { MatchOption result
            (bytes_at self.now path.now ≡ None)
            (λ bytes. bytes_at self.now path.now ≡ Some bytes.now) }
    {
        match find_file(&self.files, path) {
            None => None,
            Some(i) => Some(&self.files[i].bytes),
        }
    }

    /// Has a call of the trait fail, by its number from 1 on. `taken` is for calls that write: how many
    /// bytes they take first. What is listed last for a number counts.
    pub fn fail_at(&mut self, call: u64, taken: usize) -> Result<(), Memory>
        ensures ok { OnOk result (self.new ≡ listed self.old call taken) }
        ensures err { OnErr result (self.new ≡ self.old) }
    {
        self.failing.push((call, taken))?;
        Ok(())
    }

    // Puts bytes under a path, in the place of those that were there. Want of memory changes nothing.
    fn replace(&mut self, path: &str, bytes: &[u8]) -> Result<(), Memory>
        ensures ok { OnOk result (self.new ≡ after_put self.old path.now bytes.now) }
        ensures err { OnErr result (self.new ≡ self.old) }
    {
        let mut copy = Vec::new(self.alloc);
        copy.extend_from_slice(bytes)?;
        match find_file(&self.files, path) {
            Some(i) => {
                self.files[i].bytes = copy;
            }
            None => {
                let path = String::from_str(self.alloc, path)?;
                let faults = self.outside;
                self.files.push(MemFile {
                    path,
                    bytes: copy,
                    faults,
                })?;
            }
        }
        Ok(())
    }

    /// Puts bytes under a path, in the place of those that were there. Want of memory changes nothing.
    pub fn put(&mut self, path: &str, bytes: &[u8]) -> Result<(), Memory>
        ensures ok { OnOk result (self.new ≡ after_put self.old path.now bytes.now) }
        ensures content { OnOk result
            (content_of self.new ≡ with_file (content_of self.old) path.now bytes.now) }
        ensures err { OnErr result (self.new ≡ self.old) }
    {
        self.replace(path, bytes)
    }

    // The bytes of a file, and none where it is missing.
    pub(crate) fn bytes_of(&self, path: &str) -> &[u8]
        ensures { result.now ≡ or_empty (bytes_at self.now path.now) }
    {
        match self.get(path) {
            Some(bytes) => bytes,
            None => &[],
        }
    }

    // Puts a piece behind the bytes of a file; one that is missing counts as empty.
    pub(crate) fn extend(&mut self, path: &str, piece: &[u8]) -> Result<(), Memory>
        ensures ok { OnOk result (self.new ≡ extended self.old path.now piece.now) }
        ensures content { OnOk result
            (content_of self.new ≡ with_piece (content_of self.old) path.now piece.now) }
        ensures err { OnErr result (self.new ≡ self.old) }
    {
        let mut bytes = Vec::new(self.alloc);
        bytes.extend_from_slice(self.bytes_of(path))?;
        bytes.extend_from_slice(piece)?;
        self.replace(path, &bytes)
    }

    // Copies bytes of a file from a place on, and none where the file is missing.
    fn copy_file(&self, path: &str, at: u64, buf: &mut [u8]) -> Option<usize>
        ensures none { IsNone result → bytes_at self.now path.now ≡ None }
        ensures there { IsSome result → IsSome (bytes_at self.now path.now) }
        ensures bound { IfSome result (λ k. k ≤ length buf.new) }
        ensures bytes { IfSome result
            (λ k. ReadsAt (file (content_of self.now) path.now) at buf.new k) }
    {
        match self.get(path) {
            None => None,
            Some(bytes) => Some(copy_at(bytes, at, buf)),
        }
    }

    // How often calls on a path have failed.
    fn counts(&self, path: &str) -> Counts
        ensures { result ≡ counts_at self.now path.now }
    {
        match find_file(&self.files, path) {
            Some(i) => self.files[i].faults,
            None => self.outside,
        }
    }

    // One more fault at a path.
    fn raise(&mut self, kind: Kind, path: &str)
        ensures { self.new ≡ fault_at kind self.old path.now }
    {
        match find_file(&self.files, path) {
            Some(i) => self.files[i].faults.raise(kind),
            None => self.outside.raise(kind),
        }
    }

    // One more fault at a path, which changes no bytes and has no count fall.
    fn count_fault(&mut self, kind: Kind, path: &str)
        ensures state { self.new ≡ fault_at kind self.old path.now }
        ensures content { content_of self.new ≡ content_of self.old }
        ensures later { NoneFell (read_count self.old) (read_count self.new) }
        ensures later_writes { NoneFell (write_count self.old) (write_count self.new) }
        ensures rose { Rose (fault_count kind self.old path.now) (fault_count kind self.new path.now) }
    {
        self.raise(kind, path);
    }
}

impl Files for MemFiles {
    ghost content = { λ s. Some (content_of s) };

    ghost read_faults = { read_count };

    ghost write_faults = { write_count };

    fn read_at(&mut self, path: &str, at: u64, buf: &mut [u8]) -> Result<usize, Fault>
        ensures bound { IfOk result (λ k. k ≤ length buf.new) }
        ensures bytes { IfOk result
            (λ k. ReadsAt (file (content_of self.old) path.now) at buf.new k) }
        ensures ok { OnOk result
            ((MustFail self.old path.now → ⊥) × (self.new ≡ counted self.old)) }
        ensures failed { IsErrOf result Fault.Failed
            → MustFail self.old path.now × (self.new ≡ failed_read self.old path.now) }
        ensures memory { IsErrOf result Fault.Memory → ⊥ }
        ensures content { content_of self.new ≡ content_of self.old }
        ensures later { NoneFell (read_count self.old) (read_count self.new) }
        ensures later_writes { NoneFell (write_count self.old) (write_count self.new) }
        ensures cause { IsErrOf result Fault.Failed
            → Rose (read_count self.old path.now) (read_count self.new path.now) }
    {
        self.calls = self.calls.saturating_add(1);
        let listed = taken_at(&self.failing, self.calls).is_some();
        let got = if listed {
            None
        } else {
            self.copy_file(path, at, buf)
        };
        match got {
            Some(count) => Ok(count),
            None => {
                self.count_fault(Kind::Read, path);
                Err(Fault::Failed)
            }
        }
    }

    fn create(&mut self, path: &str) -> Result<(), Fault>
        ensures ok { OnOk result
            ((taken_next self.old ≡ None) × (self.new ≡ created self.old path.now)) }
        ensures failed { IsErrOf result Fault.Failed
            → IsSome (taken_next self.old) × (self.new ≡ failed_create self.old path.now) }
        ensures memory { IsErrOf result Fault.Memory → self.new ≡ counted self.old }
    {
        self.calls = self.calls.saturating_add(1);
        if taken_at(&self.failing, self.calls).is_some() {
            self.count_fault(Kind::Write, path);
            return Err(Fault::Failed);
        }
        self.replace(path, &[])?;
        Ok(())
    }

    fn append(&mut self, path: &str, piece: &[u8]) -> Result<(), Fault>
        ensures ok { OnOk result
            ((taken_next self.old ≡ None) × (self.new ≡ appended self.old path.now piece.now)) }
        ensures failed { IsErrOf result Fault.Failed → (taken : ℕ)
            × (taken_next self.old ≡ Some taken)
            × (self.new ≡ cut_append self.old path.now piece.now taken) }
        ensures memory { IsErrOf result Fault.Memory → self.new ≡ counted self.old }
    {
        self.calls = self.calls.saturating_add(1);
        match taken_at(&self.failing, self.calls) {
            None => {
                self.extend(path, piece)?;
                Ok(())
            }
            Some(taken) => {
                let end = taken.min(piece.len());
                self.extend(path, &piece[..end])?;
                self.count_fault(Kind::Write, path);
                Err(Fault::Failed)
            }
        }
    }

    fn read_faults(&self, path: &str) -> u64 {
        self.counts(path).reads
    }

    fn write_faults(&self, path: &str) -> u64 {
        self.counts(path).writes
    }
}
