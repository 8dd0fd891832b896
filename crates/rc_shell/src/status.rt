//! How a run ends.

ghost use Rattle.rc_shell.specs.Status.{exit_code, status_at, status_of};
ghost use Rattle.std.specs.Prelude.{◌≡◌};

/// How a run ended.
#[derive(Clone, Copy, Debug, PartialEq, Eq)]
pub enum Status {
    /// 0: the input was read to its end.
    Done,
    /// 2: the words are not those of a run.
    BadWords,
    /// 3: a table of the folder is damaged, or has another schema than the schema line.
    BadTable,
    /// 4: memory ran out.
    NoMemory,
    /// 5: the input failed.
    InputFault,
    /// 6: the output failed.
    OutputFault,
    /// 7: the store failed while its tables were checked.
    StoreFault,
    /// 8: the limit of the input was reached.
    InputLimit,
}

impl Status {
    /// The exit status of the program.
    pub fn code(self) -> u8
        ensures { result ≡ exit_code self }
    {
        match self {
            Status::Done => 0,
            Status::BadWords => 2,
            Status::BadTable => 3,
            Status::NoMemory => 4,
            Status::InputFault => 5,
            Status::OutputFault => 6,
            Status::StoreFault => 7,
            Status::InputLimit => 8,
        }
    }
}

/// Why a line ended the run.
#[derive(Clone, Copy, Debug, PartialEq, Eq)]
pub enum Ending {
    BadTable,
    StoreFault,
}

impl Ending {
    /// The status with which a run ends that a line ended so.
    pub fn status(self) -> Status
        ensures { result ≡ status_at self }
    {
        match self {
            Ending::BadTable => Status::BadTable,
            Ending::StoreFault => Status::StoreFault,
        }
    }
}

/// Why serving stopped in the middle of the input.
#[derive(Clone, Copy, Debug, PartialEq, Eq)]
pub enum Stop {
    NoMemory,
    OutputFault,
    Ended(Ending),
}

impl Stop {
    /// The status with which a run ends that stopped so.
    pub fn status(self) -> Status
        ensures { result ≡ status_of self }
    {
        match self {
            Stop::NoMemory => Status::NoMemory,
            Stop::OutputFault => Status::OutputFault,
            Stop::Ended(ending) => ending.status(),
        }
    }
}
