/// What a call on a file does.
#[derive(Clone, Copy)]
pub enum Kind {
    /// It reads.
    Read,
    /// It creates the file, or appends to it.
    Write,
}

/// How often calls on a path have failed, by their kind.
#[derive(Clone, Copy)]
pub struct Counts {
    pub reads: u64,
    pub writes: u64,
}

impl Counts {
    ghost use Rattle.std.specs.Prelude.{◌≡◌};
    ghost use Rattle.coho_io.specs.Counts.{no_faults, raised};

    /// No call has failed.
    pub fn none() -> Counts
        ensures { result ≡ no_faults }
    {
        Counts {
            reads: 0,
            writes: 0,
        }
    }

    /// One more of a kind, up to the greatest number.
    pub fn raise(&mut self, kind: Kind)
        ensures { self.new ≡ raised kind self.old }
    {
        match kind {
            Kind::Read => self.reads = self.reads.saturating_add(1),
            Kind::Write => self.writes = self.writes.saturating_add(1),
        }
    }
}
