ghost use Rattle.std.specs.Prelude.{◌≡◌, ◌≤◌, ℕ, List, length, IfOk, IfSome, IsErrOf, OnOk, OnErr};
ghost use Rattle.std.specs.declared.option.Option.{Option};
ghost use Rattle.coho_io.specs.Causes.{Rose, NoneFell};
ghost use Rattle.coho_io.specs.Content.{Content, file, ReadsAt, Creates, CreatesOrStays, AppendsPiece};
ghost use Rattle.coho_io.specs.Content.{AppendsFrontOrStays};

use crate::Fault;

/// Files by their paths.
pub trait Files {
    /// The bytes of all files, where the object tells them.
    ghost content: { Self → Option Content };

    /// How often reading a path has failed.
    ghost read_faults: { Self → List ℕ → ℕ };

    /// How often creating a path, or appending to it, has failed.
    ghost write_faults: { Self → List ℕ → ℕ };

    /// Reads bytes of a file from the place `at` on into the front of `buf`, and says how many:
    /// none only at the file's end, or where `buf` has no room. A missing file is a fault.
    fn read_at(&mut self, path: &str, at: u64, buf: &mut [u8]) -> Result<usize, Fault>
        ensures bound { IfOk result (λ k. k ≤ length buf.new) }
        ensures bytes { IfOk result (λ k. IfSome (content self.old)
            (λ files. ReadsAt (file files path.now) at buf.new k)) }
        ensures content { content self.new ≡ content self.old }
        ensures later { NoneFell (read_faults self.old) (read_faults self.new) }
        ensures later_writes { NoneFell (write_faults self.old) (write_faults self.new) }
        ensures cause { IsErrOf result Fault.Failed
            → Rose (read_faults self.old path.now) (read_faults self.new path.now) };

    /// Makes a file empty, also one that is missing. After a fault it is as before, or is empty.
    fn create(&mut self, path: &str) -> Result<(), Fault>
        ensures ok { OnOk result (Creates (content self.old) (content self.new) path.now) }
        ensures err { OnErr result (CreatesOrStays (content self.old) (content self.new) path.now) }
        ensures later { NoneFell (read_faults self.old) (read_faults self.new) }
        ensures later_writes { NoneFell (write_faults self.old) (write_faults self.new) }
        ensures cause { IsErrOf result Fault.Failed
            → Rose (write_faults self.old path.now) (write_faults self.new path.now) };

    /// Puts a piece behind a file; one that is missing counts as empty. After a fault it is as before,
    /// or has gained the first bytes of the piece.
    fn append(&mut self, path: &str, piece: &[u8]) -> Result<(), Fault>
        ensures ok { OnOk result
            (AppendsPiece (content self.old) (content self.new) path.now piece.now) }
        ensures err { OnErr result
            (AppendsFrontOrStays (content self.old) (content self.new) path.now piece.now) }
        ensures later { NoneFell (read_faults self.old) (read_faults self.new) }
        ensures later_writes { NoneFell (write_faults self.old) (write_faults self.new) }
        ensures cause { IsErrOf result Fault.Failed
            → Rose (write_faults self.old path.now) (write_faults self.new path.now) };

    /// How often reading a path has failed, up to the greatest number.
    fn read_faults(&self, path: &str) -> u64
        ensures { result ≡ read_faults self.now path.now };

    /// How often creating a path, or appending to it, has failed, up to the greatest number.
    fn write_faults(&self, path: &str) -> u64
        ensures { result ≡ write_faults self.now path.now };
}
