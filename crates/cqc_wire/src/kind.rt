//! The numbers of the types of messages and replies on the wire.
pub const HELLO: u8 = 0;

pub const COMMAND: u8 = 1;

pub const FACTORY: u8 = 2;

pub const DONE: u8 = 4;

pub const RECV: u8 = 5;

pub const EPR_OK: u8 = 6;

pub const MEASOUT: u8 = 7;

pub const NEW_OK: u8 = 10;

pub const ERR_GENERAL: u8 = 20;

pub const ERR_NOQUBIT: u8 = 21;

pub const ERR_UNSUPP: u8 = 22;

pub const ERR_TIMEOUT: u8 = 23;

pub const ERR_UNKNOWN: u8 = 25;
