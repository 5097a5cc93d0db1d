// Why nothing was looked at or committed.
use network_model::JournalFull;

/// A held cell's stamp, or a pass's number of entries, isn't the number that the journal keeps.
#[derive(Clone, Copy, PartialEq, Eq, Debug, Drop)]
pub struct Stale {
    /// The cell's number; for a pass, the number of cells plus its seat.
    pub number: u16,
    /// The journal's number, in entries.
    pub kept: u32,
    /// The stamp's or the pass's number, in entries.
    pub found: u32,
}

/// Why nothing was committed.
#[derive(Clone, Copy, PartialEq, Eq, Debug, Drop)]
pub enum CommitFault {
    /// The journal holds its capacity.
    Full(JournalFull),
    /// The hold or the pass was left behind by another commit.
    Stale(Stale),
}
