// What is said on standard error, and why.
ghost use Rattle.std.specs.Prelude.{◌≡◌, option_map};
ghost use Rattle.std.specs.IoError.{error_kind};
ghost use Rattle.qron_cli.specs.Statuses.{label_of, number_of, words_complaint};

use cqc_client::ScriptFault;
use cqc_server::ScheduleFault;
use node_table::SettingsFault;
use std::alloc::AllocError;
use std::io::{self, ErrorKind};

/// Why a command was refused, or could not be done.
#[derive(Clone, Copy, PartialEq, Eq, Debug, Drop)]
pub enum Complaint {
    /// The words aren't a line of the program.
    Words,
    /// Memory was short.
    Memory,
    /// Reading, writing or asking failed.
    Fault,
    /// The file of settings says none.
    Settings(SettingsFault),
    /// A line of the schedule is refused.
    Schedule(ScheduleFault),
    /// A line of the script is refused.
    Script(ScriptFault),
    /// A file has more bytes than any may have.
    FileTooLong,
}

impl Complaint {
    /// What is said, in front of the number of a line where there is one.
    pub fn label(&self) -> &'static str
        ensures { result.now ≡ label_of self.now }
    {
        match self {
            Complaint::Words => "qron: words",
            Complaint::Memory => "qron: memory",
            Complaint::Fault => "qron: fault",
            Complaint::Settings(_) => "qron: settings",
            Complaint::Schedule(_) => "qron: schedule line",
            Complaint::Script(_) => "qron: script line",
            Complaint::FileTooLong => "qron: file too long",
        }
    }

    /// The number of the line that is refused, if one is.
    pub fn line(&self) -> Option<u32>
        ensures { result ≡ number_of self.now }
    {
        match self {
            Complaint::Schedule(fault) => Some(fault.line),
            Complaint::Script(fault) => Some(fault.line),
            Complaint::Words
            | Complaint::Memory
            | Complaint::Fault
            | Complaint::Settings(_)
            | Complaint::FileTooLong => None,
        }
    }
}

impl From<AllocError> for Complaint {
    ghost use Rattle.qron_cli.specs.declared.complaint.Complaint.TheVariants.{Memory};

    ghost from_gives = { λ _ c. c ≡ Memory };

    fn from(_error: AllocError) -> Complaint {
        Complaint::Memory
    }
}

// Why the words could not be read: memory was short, or one of them is no text.
impl From<io::Error> for Complaint {
    ghost from_gives = { λ e c. c ≡ words_complaint (error_kind e) };

    fn from(error: io::Error) -> Complaint {
        if matches!(error.kind(), ErrorKind::OutOfMemory) {
            return Complaint::Memory;
        }
        Complaint::Words
    }
}
