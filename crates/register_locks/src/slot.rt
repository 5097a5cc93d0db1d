// What lies under a lock.
ghost use Rattle.std.specs.Borrow.{sem};
ghost use Rattle.std.specs.Prelude.{◌≡◌, Some, IsSome, None, option_map};
ghost use Rattle.register_locks.specs.Slots.{slot_value, LendsSlot};

/// A number, and the value that has it, where it is there.
#[derive(Drop)]
pub struct Slot<T> {
    pub(crate) number: u16,
    pub(crate) value: Option<Box<T>>,
}

impl<T> Default for Slot<T> {
    fn default() -> Slot<T> {
        Slot {
            number: 0,
            value: None,
        }
    }
}

impl<T> Slot<T> {
    // Lends the value to be read, where it is there.
    pub(crate) fn peek(&self) -> Option<&T>
        ensures { option_map (λ value. value.now) result ≡ slot_value self.now }
    {
        match &self.value {
            Some(value) => Some(value.as_ref()),
            None => None,
        }
    }

    // Lends the value.
    pub(crate) fn value(&mut self) -> &mut T
        requires { IsSome (slot_value self.old) }
        ensures* writes_back { sem 𝓛 (LendsSlot T.row self.entry result) }
        ensures value { slot_value self.old ≡ Some result.now }
    {
        match &mut self.value {
            Some(value) => value.as_mut(),
            None => unreachable!(),
        }
    }
}
