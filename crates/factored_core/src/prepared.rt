//! A step that is prepared on a board.
ghost use Rattle.std.specs.Prelude.{◌≡◌};

use core_cells::CellName;
use network_model::{Call, CoreReply, Entry};

/// A prepared step: its entry, and the names of the cells that it touches, which have next values.
#[derive(Drop)]
pub struct Prepared {
    pub(crate) entry: Entry,
    pub(crate) touched: [Option<CellName>; 4],
}

impl Prepared {
    /// The step of a call, with its word, its reply, and the names of the cells that it touches.
    pub(crate) fn of(
        call: &Call,
        word: Option<u64>,
        reply: CoreReply,
        touched: [Option<CellName>; 4],
    ) -> Prepared
        ensures { result ≡ record { entry = record { call = call.now; word = word; reply = reply }; touched = touched } }
    {
        Prepared {
            entry: Entry {
                call: *call,
                word,
                reply,
            },
            touched,
        }
    }

    /// The entry that the step adds to the history.
    pub fn entry(&self) -> Entry
        ensures { result ≡ self.now.entry }
    {
        self.entry
    }
}
