//! What a run answers, and the exit status that says it.

ghost use Rattle.std.specs.Prelude.{◌≡◌};

/// What a run answers.
#[derive(Clone, Copy, PartialEq, Eq, Debug)]
pub enum Status {
    /// The object is made, and all messages are said.
    Done,
    /// The source has a fault, which is said. No object is made.
    SourceFault,
    /// The words are no command, which is said. Nothing is read.
    Usage,
    /// The input failed. Its count of failures has risen.
    ReadFault,
    /// The output or the console failed. Its count of failures has risen.
    WriteFault,
    /// Memory was refused.
    NoMemory,
}

impl Status {
    /// The exit status of the process.
    pub fn code(self) -> u8
        ensures done { self ≡ Status.Done → result ≡ 0 }
        ensures source_fault { self ≡ Status.SourceFault → result ≡ 1 }
        ensures usage { self ≡ Status.Usage → result ≡ 2 }
        ensures read_fault { self ≡ Status.ReadFault → result ≡ 3 }
        ensures write_fault { self ≡ Status.WriteFault → result ≡ 4 }
        ensures no_memory { self ≡ Status.NoMemory → result ≡ 5 }
    {
        match self {
            Status::Done => 0,
            Status::SourceFault => 1,
            Status::Usage => 2,
            Status::ReadFault => 3,
            Status::WriteFault => 4,
            Status::NoMemory => 5,
        }
    }
}
