//! How a call ends: a status, and the text that is to be written.

ghost use Rattle.std.specs.Prelude.{◌≡◌};
ghost use Rattle.report_text.specs.Outcome.{status_number};

/// What an answer's number says, apart from the faults of writing and want of memory.
#[derive(Clone, Copy)]
pub enum Status {
    /// The command's answer was wholly written.
    Accepted,
    /// A rule of checking fails.
    Refused,
    /// The words are no command.
    Words,
    /// An input can't be read.
    Input,
    /// A file isn't there.
    Missing,
    /// A read failed.
    ReadFault,
    /// A limit is passed.
    Limit,
}

impl Status {
    /// The number with which the program ends.
    pub fn number(self) -> u8
        ensures { result ≡ status_number self }
    {
        match self {
            Status::Accepted => 0,
            Status::Refused => 1,
            Status::Words => 2,
            Status::Input => 3,
            Status::Missing => 4,
            Status::ReadFault => 5,
            Status::Limit => 7,
        }
    }
}

/// What is said, from the layer that finds it to the one that writes it: a status and the text that is to be written.
#[derive(Drop)]
pub struct Outcome {
    pub status: Status,
    pub text: Vec<u8>,
}
