// Values behind locks.
ghost use Rattle.std.specs.Prelude.{◌≡◌, ◌≤◌, ◌<◌, ℕ, IfOk, vec_len, length, slice_get, Some, []};

use crate::hold::Hold;
use crate::slot::Slot;
use std::alloc::{AllocError, Global};
use std::marker::Model;
use std::sync::Mutex;

/// A value that knows its number.
pub trait Numbered: Drop {
    ghost number_of: { Self → ℕ };

    /// The number, from 0.
    fn number(&self) -> u16
        ensures { result ≡ number_of self.now };
}

/// Values with numbers from 0, each behind a lock of its own. Contracts see how many there are.
#[derive(Drop)]
pub struct Locks<T> {
    pub(crate) cells: Vec<Mutex<Slot<T>>>,
}

impl<T> Model for Locks<T> {
    ghost use Rattle.std.specs.Prelude.{ℕ, ◌≤◌, vec_len};

    ghost Value = { ℕ };

    ghost view = { λ l. vec_len l.cells };

    ghost invariant = { λ l. vec_len l.cells ≤ 137 };
}

impl<T> Locks<T> {
    /// How many there are.
    pub fn count(&self) -> u16
        ensures count { result ≡ self.now }
        ensures most { result ≤ 137 }
    {
        self.cells.len() as u16
    }
}

impl<T: Numbered> Locks<T> {
    /// Locks for these values, of which the one at place k has the number k.
    pub fn new(alloc: Global, cells: Vec<T>) -> Result<Locks<T>, AllocError>
        requires most { vec_len cells ≤ 137 }
        requires numbers { (k : ℕ) (x : T) → slice_get cells.items k ≡ Some x → T.number_of x ≡ k }
        ensures { IfOk result (λ l. l ≡ vec_len cells) }
    {
        let mut locks = Vec::with_capacity(alloc, cells.len())?;
        for cell in cells {
            let number = cell.number();
            let value = Some(Box::new(alloc, cell)?);
            locks.push(Mutex::new(Slot { number, value }))?;
        }
        Ok(Locks { cells: locks })
    }

    /// A hold of nothing, with room for so many. A caller that knows that it needs few asks for no more room than that,
    /// and one that takes all locks asks for 137, since there are no more.
    pub fn begin<const ROOM: usize>(&self) -> Hold<'_, T, ROOM>
        ensures { (result.count ≡ self.now) × (result.slots ≡ []) }
    {
        Hold::over(self)
    }
}
