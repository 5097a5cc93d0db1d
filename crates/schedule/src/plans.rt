// What a schedule says, and why a text is none.

/// A connection: the node that it comes to, how many bytes its sink has room for, and its input.
#[derive(Drop)]
pub struct Planned {
    pub node: u8,
    pub room: u32,
    pub bytes: Vec<u8>,
}

/// The connections in the order of their lines, which number them from 0, and the connection of each turn.
#[derive(Drop)]
pub struct Schedule {
    pub plans: Vec<Planned>,
    pub order: Vec<u16>,
}

/// Why a line is refused. Of several causes Word is told first, then Count, Number, Hex and Many.
#[derive(Clone, Copy, PartialEq, Eq, Debug, Drop)]
pub enum Why {
    /// Its first word is neither `c` nor `s`.
    Word,
    /// A word is no number in its range, or names no node or no connection of an earlier line.
    Number,
    /// It has another number of words than its first word asks for.
    Count,
    /// The input is neither `-` nor hexadecimal digits, two for each byte.
    Hex,
    /// It is a 65th connection, or more than 1,048,576 turns stand in all.
    Many,
}

/// The first line that is refused, counted from 1, and why.
#[derive(Clone, Copy, PartialEq, Eq, Debug, Drop)]
pub struct ScheduleFault {
    pub line: u32,
    pub why: Why,
}

/// What a text says: a schedule, or a first refusal. Where memory was short, nothing is known of the text.
#[derive(Drop)]
pub enum ScheduleRead {
    Read(Schedule),
    Refused(ScheduleFault),
    OutOfMemory,
}
