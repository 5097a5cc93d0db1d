// What a session can be asked for.

/// What a session can be asked for.
#[derive(Clone, Copy, PartialEq, Eq, Debug, Drop)]
pub enum Stage {
    /// Nothing until it begins a connection.
    Closed,
    /// What comes next.
    Ready,
    /// What the core answered to the call that it asked.
    Waiting,
}
