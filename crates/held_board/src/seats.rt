// At most three cells, each found by its number.
ghost use Rattle.std.specs.Borrow.{sem};
ghost use Rattle.std.specs.Prelude.{◌≡◌, ◌<◌, ◌↔◌, ◌++◌, ◌∷◌, [], IsTrue, IsSome, IfSome, Some, length, slice_get, option_map};
ghost use Rattle.held_board.specs.Seats.{place, cell_of, without_cell, lists, AreVacant, IsHomeIn};
ghost use Rattle.held_board.specs.SeatsLends.{LendsSeatIf, LendsSeat, LendsNumber, LendsAll};

use crate::seat::Seat;
use arrayvec::ArrayVec;
use cell_box::CellBox;
use core_cells::SlotCell;
use std::marker::Model;

/// At most three cells, each under its number.
#[derive(Drop)]
pub(crate) struct Seats<T> {
    seats: ArrayVec<Seat<T>, 3>,
}

impl<T> Model for Seats<T> {
    ghost use Rattle.std.specs.Prelude.{List};
    ghost use Rattle.held_board.specs.declared.seat.Seat.{Seat};

    ghost Value = { List (Seat T) };

    ghost view = { λ s. s.seats.items };
}

impl<T> Seats<T> {
    /// No cell.
    pub(crate) fn new() -> Seats<T>
        ensures { result ≡ [] }
    {
        Seats {
            seats: ArrayVec::new(),
        }
    }

    /// Whether there is a place for a cell.
    pub(crate) fn has_room(&self) -> bool
        ensures { IsTrue result ↔ (length self.now < 3) }
    {
        !self.seats.is_full()
    }

    /// Lends the cell of a number to be read, where it is there.
    pub(crate) fn peek(&self, number: u8) -> Option<&T>
        ensures { option_map (λ cell. cell.now) result ≡ cell_of self.now number }
    {
        peek_in(self.seats.as_slice(), number)
    }

    // Lends the seat at a place, if there is one.
    fn seat_if(&mut self, place: usize) -> Option<&mut Seat<T>>
        ensures* writes_back { sem 𝓛 (LendsSeatIf T.row self.entry place result) }
        ensures there { IsSome result ↔ (place < length self.old) }
        ensures value { IfSome result (λ seat. slice_get self.old place ≡ Some seat.now) }
    {
        self.seats.get_mut(place)
    }

    // Lends the seat at a place.
    fn seat(&mut self, place: usize) -> &mut Seat<T>
        requires { place < length self.old }
        ensures* writes_back { sem 𝓛 (LendsSeat T.row self.entry place result) }
        ensures value { slice_get self.old place ≡ Some result.now }
    {
        match self.seat_if(place) {
            Some(seat) => seat,
            None => unreachable!(),
        }
    }

    /// Lends the cell of a number.
    pub(crate) fn get(&mut self, number: u8) -> &mut T
        requires { IsSome (cell_of self.old number) }
        ensures* writes_back { sem 𝓛 (LendsNumber T.row self.entry number result) }
        ensures value { cell_of self.old number ≡ Some result.now }
    {
        let place = place_of(self.seats.as_slice(), number);
        self.seat(place).cell()
    }

    /// Takes the cell of a number out, where it is there.
    pub(crate) fn take(&mut self, number: u8) -> Option<T>
        ensures cell { result ≡ cell_of self.old number }
        ensures rest { self.new ≡ without_cell self.old number }
    {
        let place = place_of(self.seats.as_slice(), number);
        if place < self.seats.len() {
            self.seat(place).cell.take()
        } else {
            None
        }
    }

    /// Whether no cell is there.
    pub(crate) fn is_empty(&self) -> bool
        ensures { IsTrue result ↔ AreVacant self.now }
    {
        self.seats.iter().all(|seat| seat.cell.is_none())
    }

    /// Lends all seats.
    pub(crate) fn all(&mut self) -> &mut [Seat<T>]
        ensures* writes_back { sem 𝓛 (LendsAll T.row self.entry result) }
        ensures value { result.now ≡ self.old }
    {
        self.seats.as_mut_slice()
    }
}

impl<T: Drop> Seats<T> {
    /// Puts a cell under a number, behind all others.
    pub(crate) fn put(&mut self, number: u8, cell: T)
        requires { length self.old < 3 }
        ensures { self.new ≡ self.old ++ record { number = number; cell = Some cell } ∷ [] }
    {
        self.seats.push(Seat {
            number,
            cell: Some(cell),
        });
    }
}

impl Seats<CellBox<SlotCell>> {
    /// The number of a slot whose register lists a qubit number, if there is one.
    pub(crate) fn home(&self, qubit: u8) -> Option<u8>
        ensures { IsHomeIn self.now qubit result }
    {
        home_in(self.seats.as_slice(), qubit)
    }
}

// The number of a slot whose register lists a qubit number, if there is one.
fn home_in(seats: &[Seat<CellBox<SlotCell>>], qubit: u8) -> Option<u8>
    ensures { IsHomeIn seats.now qubit result }
{
    for seat in seats {
        if lists_qubit(seats, seat.number, qubit) {
            return Some(seat.number);
        }
    }
    None
}

// Whether the register of a slot that is there lists a qubit number.
fn lists_qubit(seats: &[Seat<CellBox<SlotCell>>], slot: u8, qubit: u8) -> bool
    ensures { result ≡ lists (cell_of seats.now slot) qubit }
{
    match peek_in(seats, slot) {
        Some(cell) => cell.has(qubit),
        None => false,
    }
}

// Lends the cell of a number to be read, where it is there.
fn peek_in<T>(seats: &[Seat<T>], number: u8) -> Option<&T>
    ensures { option_map (λ cell. cell.now) result ≡ cell_of seats.now number }
{
    seats.get(place_of(seats, number))?.peek()
}

/// The place of the first seat of a number, or their count where there is none.
pub(crate) fn place_of<T>(seats: &[Seat<T>], number: u8) -> usize
    ensures { result ≡ place seats.now number }
{
    for (place, seat) in seats.iter().enumerate() {
        if seat.number == number {
            return place;
        }
    }
    seats.len()
}
