ghost use Rattle.std.specs.Prelude.{◌≡◌};
ghost use Rattle.dn_io.specs.Status.{code_of};

/// How a run ended.
#[derive(Clone, Copy, Debug, PartialEq, Eq, Drop)]
pub enum Status {
    /// The script was read to its end and played.
    Ok,
    /// The words of the command line aren't a command.
    BadWords,
    /// A read of the script failed.
    ReadFault,
    /// A write of the output failed.
    WriteFault,
    /// Want of memory.
    OutOfMemory,
    /// A line isn't of the script's grammar.
    BadScript,
    /// The script, or what it asks for, is longer than allowed.
    TooLong,
    /// An access of the pool failed.
    PoolFault,
    /// The pool's index has no place left.
    IndexFull,
}

impl Status {
    /// The number that the process ends with: 0 for `Ok`, and 2 to 9 for the others in their order.
    pub fn code(&self) -> u8
        ensures { result ≡ code_of self.now }
    {
        match self {
            Status::Ok => 0,
            Status::BadWords => 2,
            Status::ReadFault => 3,
            Status::WriteFault => 4,
            Status::OutOfMemory => 5,
            Status::BadScript => 6,
            Status::TooLong => 7,
            Status::PoolFault => 8,
            Status::IndexFull => 9,
        }
    }
}
