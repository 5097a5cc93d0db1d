// Names of cells, and how a prepared step ends.

/// A cell of a board.
#[derive(Clone, Copy, PartialEq, Eq, Debug, Drop)]
pub enum CellName {
    /// The cell of a node, by its place in the settings, from 0.
    Node(u8),
    /// The cell of what is free.
    Pool,
    /// The cell of a slot, by its number, from 0.
    Slot(u8),
}

/// How a prepared step ends.
#[derive(Clone, Copy, PartialEq, Eq, Debug, Drop)]
pub enum Ending {
    /// Its next values become the values.
    Settle,
    /// Its next values are forgotten.
    Forget,
}
