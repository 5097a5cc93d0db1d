// What the program's words ask for.
use network_model::Place;

/// The first word of a line, which says what the others mean.
#[derive(Clone, Copy, PartialEq, Eq, Debug, Drop)]
pub(crate) enum Mode {
    Pipe,
    Replay,
    Serve,
    Talk,
    Drill,
}

/// What the program's words ask for. Files are named here, and not read.
#[derive(Clone, Copy, PartialEq, Eq, Debug, Drop)]
pub enum Asked<'a> {
    /// One connection over standard input and output, at a network of one node.
    Pipe,
    /// The same, at a network with the settings of a file.
    PipeWith {
        settings: &'a str,
    },
    /// The connections of a schedule, at a network with the settings of a file.
    Replay {
        settings: &'a str,
        schedule: &'a str,
    },
    /// The nodes of a network with the settings of a file, on their ports.
    Serve {
        settings: &'a str,
    },
    /// A client that sends the messages of a script to a place.
    Talk {
        place: Place,
        script: &'a str,
    },
    /// The generated input of 1 to 100,000 rounds.
    Drill {
        rounds: u32,
    },
}
