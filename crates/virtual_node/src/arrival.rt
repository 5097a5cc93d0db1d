// Qubits that wait at a node.
use cqc_model::PairInfo;
use network_model::Line;

/// A qubit, known by its number, waits for an application: a sent one, or half of a pair with what is told of it.
#[derive(Clone, Copy, PartialEq, Eq, Debug, Default, Drop)]
pub struct Arrival {
    pub app: u16,
    pub line: Line,
    pub number: u8,
    pub info: Option<PairInfo>,
}

/// What a look into a queue finds: the place of its first arrival among the node's arrivals, or nothing.
#[derive(Clone, Copy, PartialEq, Eq, Debug, Drop)]
pub enum Look {
    Here { place: u8 },
    Empty,
}
