// A bounded list of handles.
ghost use Rattle.std.specs.Prelude.{◌≡◌, ◌<◌, ◌≤◌, [], ◌∷◌, ◌++◌, length, None, Some, IsSome, IfSome, IsNone, ◌↔◌, ◌==◌, filter, min, ℕ, position};
ghost use Rattle.std.specs.List.{reduce};
ghost use Rattle.network_model.specs.Step.{least_free};
ghost use Rattle.qubit_handles.specs.Handle.{is_named, number_of, ids_of, without_handle, AreDistinct};

use arrayvec::ArrayVec;
use std::marker::Model;

/// The most qubits that a node holds.
pub const HANDLES: usize = 16;

/// An application holds a qubit, known by its number, under an id.
#[derive(Clone, Copy, PartialEq, Eq, Debug, Default, Drop)]
pub struct Handle {
    pub app: u16,
    pub id: u16,
    pub number: u8,
}

/// The handles of a node, in the order in which they were added: at most 16, and no application has two of one id.
#[derive(Drop)]
pub struct Handles {
    list: ArrayVec<Handle, HANDLES>,
}

impl Model for Handles {
    ghost use Rattle.std.specs.Prelude.{List};
    ghost use Rattle.qubit_handles.specs.declared.handles.Handle.{Handle};
    ghost use Rattle.qubit_handles.specs.Handle.{AreDistinct};

    ghost Value = { List Handle };

    ghost view = { λ h. h.list.items };

    ghost invariant = { λ h. AreDistinct h.list.items };
}

impl Handles {
    /// No handle.
    pub fn new() -> Handles
        ensures { result ≡ [] }
    {
        Handles {
            list: ArrayVec::new(),
        }
    }

    /// How many there are.
    pub fn len(&self) -> u8
        ensures len { result ≡ length self.now }
        ensures most { result ≤ 16 }
    {
        self.list.len() as u8
    }

    /// What every list of handles keeps: no application holds two qubits under one id.
    pub fn facts(&self)
        ensures { AreDistinct self.now }
    {
        let _ = &self.list;
    }

    /// The number of the qubit that the application holds under the id, if it holds one.
    pub fn find(&self, app: u16, id: u16) -> Option<u8>
        ensures { result ≡ number_of self.now app id }
    {
        let handle = self.list.iter().find(|h| h.app == app && h.id == id)?;
        Some(handle.number)
    }

    /// The least id under which the application holds nothing.
    pub fn least_id(&self, app: u16) -> u16
        ensures least { result ≡ least_free (ids_of self.now app) }
        ensures free { number_of self.now app result ≡ None }
    {
        let held = count_of(&self.list, app);
        let mut id = 0;
        for _ in 0..held {
            if self.find(app, id).is_none() {
                return id;
            }
            id += 1;
        }
        id
    }

    /// The least id under which the application holds a qubit, if it holds one.
    pub fn least_held(&self, app: u16) -> Option<u16>
        ensures none { IsNone result ↔ (ids_of self.now app ≡ []) }
        ensures held { IfSome result (λ id. IsSome (number_of self.now app id)) }
        ensures least { IfSome result (λ id. (other : ℕ) → IsSome (number_of self.now app other) → id ≤ other) }
    {
        least_of(&self.list, app)
    }

    /// The same handles.
    pub fn copy(&self) -> Handles
        ensures { result ≡ self.now }
    {
        let mut list = ArrayVec::new();
        let Ok(()) = list.try_extend_from_slice(self.list.as_slice()) else {
            unreachable!()
        };
        Handles { list }
    }

    /// Adds a handle behind the others. There is room for it, and its application holds nothing under its id.
    pub fn add(&mut self, handle: Handle)
        requires room { length self.old < 16 }
        requires free { number_of self.old handle.app handle.id ≡ None }
        ensures { self.new ≡ self.old ++ handle ∷ [] }
    {
        self.list.push(handle);
    }

    /// Drops the handle of an id that the application holds, and gives the qubit's number. The others stay in order.
    pub fn drop_one(&mut self, app: u16, id: u16) -> u8
        requires held { IsSome (number_of self.old app id) }
        ensures number { number_of self.old app id ≡ Some result }
        ensures others { self.new ≡ without_handle self.old app id }
    {
        let Some(place) = place_of(&self.list, app, id) else {
            unreachable!()
        };
        self.list.remove(place).number
    }
}

// Where the application's handle of the id stands, if there is one.
fn place_of(list: &[Handle], app: u16, id: u16) -> Option<usize>
    ensures { result ≡ position (is_named app id) list.now }
{
    list.iter().position(|h| h.app == app && h.id == id)
}

// How many handles are the application's.
fn count_of(list: &[Handle], app: u16) -> usize
    ensures { result ≡ length (filter (λ h. h.app == app) list.now) }
{
    list.iter().filter(|h| h.app == app).count()
}

// The least of the application's ids.
fn least_of(list: &[Handle], app: u16) -> Option<u16>
    ensures { result ≡ reduce min (ids_of list.now app) }
{
    list.iter().filter(|h| h.app == app).map(|h| h.id).min()
}
