// A value on the heap.
ghost use Rattle.std.specs.Borrow.{sem};
ghost use Rattle.std.specs.Prelude.{◌≡◌, IfOk};
ghost use Rattle.cell_box.specs.Lent.{LendsValue};

use std::alloc::{AllocError, Global};
use std::marker::Model;
use std::ops::{Deref, DerefMut};

/// A value on the heap. A move of it moves no more than its address.
#[derive(Drop)]
pub struct CellBox<T> {
    value: Box<T>,
}

impl<T> Model for CellBox<T> {
    ghost use Rattle.std.specs.Prelude.{box_value};

    ghost Value = { T };

    ghost view = { λ c. box_value c.value };
}

impl<T: Drop> CellBox<T> {
    /// Puts a value on the heap.
    pub fn new(alloc: Global, value: T) -> Result<CellBox<T>, AllocError>
        ensures { IfOk result (λ c. c ≡ value) }
    {
        Ok(CellBox {
            value: Box::new(alloc, value)?,
        })
    }
}

impl<T> Deref for CellBox<T> {
    type Target = T;

    ghost deref_gives = { λ c x. x ≡ c };

    fn deref(&self) -> &T
        ensures { result.now ≡ self.now }
    {
        self.value.as_ref()
    }
}

impl<T> DerefMut for CellBox<T> {
    ghost deref_mut_gives = { λ c x. x ≡ c };

    fn deref_mut(&mut self) -> &mut T
        ensures* writes_back { sem 𝓛 (LendsValue T.row self.entry result) }
        ensures value { result.now ≡ self.old }
    {
        self.value.as_mut()
    }
}
