//! How a run of the program ended, and the exit number of that.
ghost use Rattle.std.specs.Prelude.{◌≡◌, ◌≤◌};

/// How a run of the program ended.
#[derive(Clone, Copy, Debug, PartialEq, Eq)]
pub enum Status {
    /// The command did what it is for.
    Done,
    /// The case text was refused.
    Refused,
    /// The words were refused.
    Words,
    /// A number left its range.
    Range,
    /// A read failed; nothing was written.
    ReadFault,
    /// A write failed; a first part of the text may have been written.
    WriteFault,
    /// Want of memory; nothing was written.
    Memory,
}

impl Status {
    ghost use Rattle.surge_top.specs.Status.{number_of};

    /// The exit number: 0 to 6, in the order of the statuses.
    pub fn number(self) -> u8
        ensures number { result ≡ number_of self }
        ensures few { result ≤ 6 }
    {
        match self {
            Status::Done => 0,
            Status::Refused => 1,
            Status::Words => 2,
            Status::Range => 3,
            Status::ReadFault => 4,
            Status::WriteFault => 5,
            Status::Memory => 6,
        }
    }
}
