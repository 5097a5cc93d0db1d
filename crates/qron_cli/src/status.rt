// How a command ends, and the program's status.
ghost use Rattle.std.specs.Prelude.{◌≡◌};
ghost use Rattle.qron_cli.specs.Statuses.{code_of, outcome_of, status_of};

use crate::complaint::Complaint;
use session_model::Ending;

/// How a command ended that did its work.
#[derive(Clone, Copy, PartialEq, Eq, Debug, Drop)]
pub enum Work {
    /// Each input ended between two messages, and all was written.
    Done,
    /// An input was cut within a message, the journal was full, the most bytes were read, or a reply is missing or is none.
    Unfinished,
}

/// What came of a command: its work, or a complaint.
pub type Outcome = Result<Work, Complaint>;

/// How the program ended.
#[derive(Clone, Copy, PartialEq, Eq, Debug, Drop)]
pub enum Status {
    /// The command did its work, and nothing was left unfinished.
    Done,
    /// A file that the words name is refused, or too long.
    Refused,
    /// The words aren't a line of the program.
    Words,
    /// Memory was short.
    Memory,
    /// Reading, writing or asking failed.
    Fault,
    /// An input was cut within a message, the journal was full, the most bytes were read, or a reply is missing or is none.
    Unfinished,
}

impl Status {
    /// The number that the program's caller is given.
    pub fn code(self) -> u8
        ensures { result ≡ code_of self }
    {
        match self {
            Status::Done => 0,
            Status::Refused => 1,
            Status::Words => 2,
            Status::Memory => 3,
            Status::Fault => 4,
            Status::Unfinished => 5,
        }
    }

    /// The status of an outcome.
    pub fn of(outcome: &Outcome) -> Status
        ensures { result ≡ status_of outcome.now }
    {
        match outcome {
            Ok(Work::Done) => Status::Done,
            Ok(Work::Unfinished) => Status::Unfinished,
            Err(Complaint::Words) => Status::Words,
            Err(Complaint::Memory) => Status::Memory,
            Err(Complaint::Fault) => Status::Fault,
            Err(
                Complaint::Settings(_)
                | Complaint::Schedule(_)
                | Complaint::Script(_)
                | Complaint::FileTooLong,
            ) => Status::Refused,
        }
    }
}

/// What came of a session with this ending.
pub fn outcome_of(ending: &Ending) -> Outcome
    ensures { result ≡ outcome_of ending.now }
{
    match ending {
        Ending::Clean => Ok(Work::Done),
        Ending::Cut { .. } | Ending::Full { .. } | Ending::Spent { .. } => Ok(Work::Unfinished),
        Ending::ReadFault | Ending::WriteFault => Err(Complaint::Fault),
    }
}
