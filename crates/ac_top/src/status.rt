ghost use Rattle.std.specs.Prelude.{◌≡◌};
ghost use Rattle.ac_top.specs.Status.{number_of};

/// How the program ends.
#[derive(Clone, Copy, PartialEq, Eq)]
pub enum Status {
    /// The script ran to its end, or, where it is only checked, can run.
    Done,
    /// The input isn't a script that can run, or is too long.
    Refused,
    /// The words aren't the command's.
    Usage,
    ReadFault,
    WriteFault,
    NoMemory,
}

impl Status {
    /// The exit status of the process.
    pub fn number(&self) -> u8
        ensures { result ≡ number_of self.now }
    {
        match self {
            Status::Done => 0,
            Status::Refused => 1,
            Status::Usage => 2,
            Status::ReadFault => 3,
            Status::WriteFault => 4,
            Status::NoMemory => 5,
        }
    }
}
