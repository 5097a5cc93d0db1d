// What serving leaves.
use crate::post::Post;
use network_model::Entry;
use qron_link::Door;
use session_model::Ending;

/// A connection that was served to its end.
#[derive(Drop)]
pub struct Served<L> {
    /// The seat of its worker, from 0.
    pub seat: u16,
    /// Its number among the connections of that worker, from 0.
    pub serial: u16,
    /// Its node, by the node's place in the settings, from 0.
    pub node: u8,
    /// Its link, as it was left.
    pub link: L,
    /// How it ended.
    pub ending: Ending,
}

/// Why a worker serves no more connections.
#[derive(Clone, Copy, PartialEq, Eq, Debug, Drop)]
pub enum WorkerEnd {
    /// It has served as many as the settings say.
    Limit,
    /// Its door is closed.
    Closed,
    /// Its door failed.
    DoorFault,
}

/// All that was said and done on the ports of a network.
#[derive(Drop)]
pub struct Record<D: Door, W, P> {
    /// The one history that all commands were entries of.
    pub entries: Vec<Entry>,
    /// The connections that were served, in order of seat, then of serial.
    pub served: Vec<Served<D::Link>>,
    /// Why each worker ended, in order of seat.
    pub ends: Vec<WorkerEnd>,
    /// The posts, in order of seat, as the workers left them.
    pub posts: Vec<Post<D, W, P>>,
}
