// Holds: values whose locks are held.
ghost use Rattle.std.specs.Borrow.{sem};
ghost use Rattle.std.specs.Prelude.{◌≡◌, ◌≢◌, ◌≤◌, ◌<◌, ◌++◌, ◌∷◌, ◌↔◌, [], ℕ, All, IsSome, IsTrue, Some, IfSome, length, slice_get, option_map};
ghost use Rattle.register_locks.specs.Slots.{held, slot_number, slot_value, numbers, RisesTo};
ghost use Rattle.register_locks.specs.Holds.{LendsHeld, LendsPlace};

use crate::locks::{Locks, Numbered};
use crate::slot::Slot;
use arrayvec::ArrayVec;
use std::marker::Model;
use std::mem;
use std::sync::{MutexGuard, Wait};

/// Values whose locks are held, in rising order of their numbers, and no more than ROOM. Dropping a hold gives all locks
/// back. Contracts see how many locks there are, and what is held. What is held lies in the hold itself, so a hold with
/// room for few is cheap to begin and to move.
pub struct Hold<'a, T, const ROOM: usize> {
    slots: ArrayVec<Slot<T>, ROOM>,
    guards: ArrayVec<Option<MutexGuard<'a, Slot<T>>>, ROOM>,
    locks: &'a Locks<T>,
}

impl<'a, T, const ROOM: usize> Model for Hold<'a, T, ROOM> {
    ghost use Rattle.std.specs.Prelude.{◌≡◌, length, All, IsSome};
    ghost use Rattle.register_locks.specs.Slots.{Holding, RisesTo, numbers, slot_value};

    ghost Value = { Holding T };

    ghost view = { λ h. record { count = h.locks.now; slots = h.slots.items } };

    ghost invariant = { λ h. RisesTo 0 (numbers h.slots.items) h.locks.now × All (λ s. IsSome (slot_value s)) h.slots.items × All (λ g. IsSome g) h.guards.items × (length h.guards.items ≡ length h.slots.items) };
}

impl<'a, T, const ROOM: usize> Hold<'a, T, ROOM> {
    pub(crate) fn over(locks: &'a Locks<T>) -> Hold<'a, T, ROOM>
        ensures { (result.count ≡ locks.now) × (result.slots ≡ []) }
    {
        Hold {
            slots: ArrayVec::new(),
            guards: ArrayVec::new(),
            locks,
        }
    }

    /// Whether the lock of this number is held.
    pub fn has(&self, number: u16) -> bool
        ensures { IsTrue result ↔ IsSome (held self.now.slots number) }
    {
        let slots = self.slots.as_slice();
        place_of(slots, number) < slots.len()
    }

    /// How many locks there are.
    pub fn count(&self) -> u16
        ensures count { result ≡ self.now.count }
        ensures most { result ≤ 137 }
    {
        self.locks.count()
    }

    /// The numbers of what is held rise, in the order in which it was taken.
    pub fn numbers_rise(&self)
        ensures { RisesTo 0 (numbers self.now.slots) self.now.count }
    {
        let _len = self.slots.len();
    }

    /// How many are held.
    pub fn len(&self) -> usize
        ensures { result ≡ length self.now.slots }
    {
        self.slots.len()
    }

    /// Whether one more can be held.
    pub fn has_room(&self) -> bool
        ensures { IsTrue result ↔ (length self.now.slots < ROOM) }
    {
        self.slots.len() < ROOM
    }

    /// Lends the value of this number to be read, where it is held.
    pub fn peek(&self, number: u16) -> Option<&T>
        ensures { option_map (λ value. value.now) result ≡ held self.now.slots number }
    {
        let slots = self.slots.as_slice();
        match slots.get(place_of(slots, number)) {
            Some(slot) => slot.peek(),
            None => None,
        }
    }

    /// Lends the value that was taken at this place, from 0.
    pub fn at(&mut self, place: usize) -> &mut T
        requires { place < length self.old.slots }
        ensures* writes_back { sem 𝓛 (LendsPlace T.row ROOM.row self.entry place result) }
        ensures value { IfSome (slice_get self.old.slots place) (λ s. slot_value s ≡ Some result.now) }
    {
        match self.slots.get_mut(place) {
            Some(slot) => slot.value(),
            None => unreachable!(),
        }
    }

    /// Lends the value of this number.
    pub fn get(&mut self, number: u16) -> &mut T
        requires { IsSome (held self.old.slots number) }
        ensures* writes_back { sem 𝓛 (LendsHeld T.row ROOM.row self.entry number result) }
        ensures value { held self.old.slots number ≡ Some result.now }
    {
        let place = place_of(self.slots.as_slice(), number);
        self.at(place)
    }
}

impl<'a, T: Numbered, const ROOM: usize> Hold<'a, T, ROOM> {
    /// Takes the lock of this number, which is greater than all that are held, where one more can be held. It may wait.
    /// A value with another number is given back, and its lock is taken again.
    pub fn take(&mut self, rt: &impl Wait, number: u16)
        requires there { number < self.old.count }
        requires rising { All (λ n. n < number) (numbers self.old.slots) }
        requires room { length self.old.slots < ROOM }
        ensures count { self.new.count ≡ self.old.count }
        ensures taken { (s : Slot T) × (v : T) × (self.new.slots ≡ self.old.slots ++ s ∷ []) × (slot_number s ≡ number) × (slot_value s ≡ Some v) × (T.number_of v ≡ number) }
    {
        let locks = self.locks;
        let (slot, guard) = acquire(locks, rt, number);
        self.slots.push(slot);
        self.guards.push(Some(guard));
    }
}

/// Each value goes back under its lock, and the locks are given back.
impl<'a, T: Drop, const ROOM: usize> Drop for Hold<'a, T, ROOM> {
    fn drop(self) {
        let Hold {
            slots,
            guards,
            locks: _,
        } = self;
        guards.into_iter().zip(slots).for_each(give_back);
    }
}

// A slot goes back under its lock, and the lock is given back.
fn give_back<'a, T: Drop>(held: (Option<MutexGuard<'a, Slot<T>>>, Slot<T>)) {
    let (guard, slot) = held;
    if let Some(mut guard) = guard {
        *guard = slot;
    }
}

// The slot of this number, moved out of its lock, and the guard that keeps the lock. What is known of a value when its
// lock is got is what its type keeps, so the number is tested.
fn acquire<'a, T: Numbered>(
    locks: &'a Locks<T>,
    rt: &impl Wait,
    number: u16,
) -> (Slot<T>, MutexGuard<'a, Slot<T>>)
    requires { number < locks.now }
    ensures there { (slot_number result.0 ≡ number) × ((v : T) × (slot_value result.0 ≡ Some v) × (T.number_of v ≡ number)) }
{
    let lock = &locks.cells[number as usize];
    for _ in rt.forever() {
        let mut guard = lock.lock(rt);
        let slot = mem::take(&mut *guard);
        if answers(&slot, number) {
            return (slot, guard);
        }
        *guard = slot;
    }
    unreachable!()
}

// Whether a value is there that answers this number.
fn answers<T: Numbered>(slot: &Slot<T>, number: u16) -> bool
    ensures { IsTrue result → (slot_number slot.now ≡ number) × ((v : T) × (slot_value slot.now ≡ Some v) × (T.number_of v ≡ number)) }
{
    match &slot.value {
        Some(value) => slot.number == number && value.number() == number,
        None => false,
    }
}

// The place of the slot of this number, or the length where there is none.
fn place_of<T>(slots: &[Slot<T>], number: u16) -> usize
    ensures within { result ≤ length slots.now }
    ensures there { (s : Slot T) → slice_get slots.now result ≡ Some s → slot_number s ≡ number }
    ensures first { (k : ℕ) (s : Slot T) → k < result → slice_get slots.now k ≡ Some s → slot_number s ≢ number }
{
    for (place, slot) in slots.iter().enumerate() {
        if slot.number == number {
            return place;
        }
    }
    slots.len()
}
