//! Gates: what a strand passes each time it enters a region.
ghost use Rattle.std.specs.Prelude.{◌≡◌, ℕ, ◌+◌, ◌<◌, ◌^◌};

/// What a strand holds of a gate: the name of the strand, and how many of its regions it entered.
pub trait EntryStub: Drop + Send + Sync {
    ghost strand_of: { Self → ℕ };

    ghost entered_of: { Self → ℕ };
}

/// What strands pass where they enter their regions.
pub trait Gate {
    /// What a strand holds of this gate.
    type Stub: EntryStub;

    /// The stub of a strand that has entered nothing.
    fn begin(&mut self, strand: u32) -> Self::Stub
        ensures strand { Self.Stub.strand_of result ≡ strand }
        ensures none { Self.Stub.entered_of result ≡ 0 };

    /// The stub of the same strand with one entry more.
    fn enter(&self, stub: Self::Stub) -> Self::Stub
        requires room { Self.Stub.entered_of stub < 2 ^ 62 }
        ensures strand { Self.Stub.strand_of result ≡ Self.Stub.strand_of stub }
        ensures more { Self.Stub.entered_of result ≡ Self.Stub.entered_of stub + 1 };
}

/// The stub of an open gate.
#[derive(Drop, Clone, Copy, Debug)]
pub struct OpenStub {
    /// The strand.
    pub strand: u32,
    /// How many of its regions were entered.
    pub entered: u64,
}

impl EntryStub for OpenStub {
    ghost strand_of = { λ stub. stub.strand };

    ghost entered_of = { λ stub. stub.entered };
}

/// A gate that answers at once.
#[derive(Drop, Clone, Copy, Debug)]
pub struct OpenGate;

impl Gate for OpenGate {
    type Stub = OpenStub;

    fn begin(&mut self, strand: u32) -> OpenStub {
        OpenStub { strand, entered: 0 }
    }

    fn enter(&self, stub: OpenStub) -> OpenStub {
        OpenStub {
            strand: stub.strand,
            entered: stub.entered + 1,
        }
    }
}
