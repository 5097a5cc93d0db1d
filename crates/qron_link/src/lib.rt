//! The outside, as traits with a meaning, and what stands for it in memory.
#![tactic(auto)]

mod chacha_dice;
mod dice;
mod door;
mod ends;
mod mem_door;
mod mem_link;
mod outside;
mod patience;
mod pipe;
mod tcp;
mod transfer;

pub use chacha_dice::ChaChaDice;
pub use dice::{Dice, ListDice};
pub use door::{Door, Knock};
pub use ends::{Reader, Writer};
pub use mem_door::MemDoor;
pub use mem_link::MemLink;
pub use outside::{Got, Link, Put, Sink, Source, read_link};
pub use patience::{CountPatience, EmptyAt, Patience, SleepPatience};
pub use pipe::{NotSent, Pipe, StdPipe};
pub use tcp::{TcpDoor, TcpLink};
pub use transfer::{Filled, fill, send, send_link, skip};

#[cfg(test)]
mod pipe_tests;
#[cfg(test)]
mod tcp_tests;
#[cfg(test)]
mod tests;
