//! A register: its value, and room for the next one.
ghost use Rattle.std.specs.Prelude.{◌≡◌, ◌≢◌, pos, nat_abs, ◌<◌, ◌≤◌, ◌^◌, ◌<ℤ◌, false, length, IfOk, MatchResult, MatchOption, slice_index_or};
ghost use Rattle.state_model.specs.Coefficient.{negated};
ghost use Rattle.state_model.specs.Row.{is_listed};
ghost use Rattle.state_model.specs.CoefficientList.{at, total_weight, IsNonzero, IsScaled, HasDeltaDivisors};
ghost use Rattle.state_model.specs.StateVector.{IsSize};
ghost use Rattle.state_model.specs.Gate.{matrix};
ghost use Rattle.state_model.specs.declared.Gate.TheVariants.{H, X, RotZ};
ghost use Rattle.state_model.specs.declared.Two.TheVariants.{Cnot, Cphase};
ghost use Rattle.state_model.specs.Amplitudes.{vector_of, AreDistinct, HasRows};
ghost use Rattle.omega_ring.specs.Views.{omega_value, omega_values, weight_value};
ghost use Rattle.omega_ring.specs.Range.{CoordinatesBelow};
ghost use Rattle.amplitude_register.specs.States.{RegisterState, empty, draft, prepared, no_qubit, basis_state, pair_state, zeros, IsDraft, IsPrepared, IsPresent, IsNextKept, next_value, prepared_qubits, with_list, with_row, IsKept, IsGateStep, IsTwoGateStep, IsSealed, IsRefused, CanReduce};

use crate::block::{Block, Stage, next_weight};
use crate::{common, controlled, fronts, normal, rows};
use omega_ring::{Omega, Weight};
use state_model::{REGISTER_QUBITS, SIZE_LIMIT};
use std::alloc::{AllocError, Global};
use std::marker::Model;

/// A list of distinct qubit numbers, a coefficient for each row of their bits (bit k of a row belongs to the
/// k-th number), and a next value: a draft that is being written, or a prepared value that `flip` puts in place.
///
/// Value and prepared value have no common divisor but units, have twice the absolute value of y at most x in
/// their weight, and have x, the sum of squares of all coordinates, below 2^60.
#[derive(Drop)]
pub struct Register {
    pub(crate) limit: u8,
    pub(crate) value: Block,
    pub(crate) next: Block,
    pub(crate) stage: Stage,
}

impl Model for Register {
    ghost use Rattle.amplitude_register.specs.States.{RegisterState};

    ghost Value = { RegisterState };

    ghost use Rattle.amplitude_register.specs.Held.{state_of, IsRegister};

    ghost view = { state_of };

    ghost invariant = { IsRegister };
}

/// A least size, the sum of squares of all coordinates, of 2^60 or more.
#[derive(Clone, Copy, PartialEq, Eq, Debug, Drop)]
pub struct TooLarge {
    /// The least size.
    pub size: i128,
}

/// What a draft is divided by, so that it has no common divisor but units.
#[derive(Clone, Copy, PartialEq, Eq, Debug, Drop)]
pub enum Reduce {
    /// Powers of 1 - w, which are all that can come in by a gate.
    Delta,
    /// A greatest common divisor, of a draft whose sum of squares is below 2^60.
    Full,
}

impl Register {
    /// A register of at most `limit` qubits (1 to 12). It has no qubit, and the one coefficient 1.
    pub fn new(alloc: Global, limit: u8) -> Result<Register, AllocError>
        requires some { 1 ≤ limit }
        requires most { limit ≤ 12 }
        ensures { IfOk result (λ r. r ≡ record { limit = limit; value = no_qubit; next = empty }) }
    {
        let room = fronts::rows_of(limit as usize);
        let mut one = vec![in alloc; fronts::ZERO; room]?;
        let two = vec![in alloc; fronts::ZERO; room]?;
        fronts::write_one(&mut one);
        Ok(Register {
            limit,
            value: Block {
                qubits: [0; REGISTER_QUBITS],
                count: 0,
                rows: 1,
                weight: ONE,
                entries: one,
            },
            next: Block {
                qubits: [0; REGISTER_QUBITS],
                count: 0,
                rows: 1,
                weight: ONE,
                entries: two,
            },
            stage: Stage::Empty,
        })
    }

    /// The coefficient of a row.
    pub fn coefficient(&self, row: u16) -> Omega
        requires { row < length self.now.value.list }
        ensures { omega_value result ≡ at self.now.value.list row }
    {
        self.value.entries[row as usize]
    }

    /// The coefficients of all rows.
    pub fn rows(&self) -> &[Omega]
        ensures { omega_values result.now ≡ self.now.value.list }
    {
        &self.value.entries[..self.value.rows]
    }

    /// The x of the value's weight, which is the least of all whole vectors that are the same state.
    pub fn size(&self) -> i128
        ensures size { result ≡ (total_weight self.now.value.list).x }
        ensures least { IsSize (vector_of self.now.value) self.now.value.qubits (nat_abs result) }
        ensures small { result <ℤ pos (2 ^ 60) }
    {
        self.value.weight.x
    }

    /// The value's weight.
    pub fn weight(&self) -> Weight
        ensures { weight_value result ≡ total_weight self.now.value.list }
    {
        self.value.weight
    }

    /// The number of the value's rows.
    pub fn row_count(&self) -> u16
        ensures rows { result ≡ length self.now.value.list }
        ensures qubits { result ≡ 2 ^ length self.now.value.qubits }
    {
        self.value.rows as u16
    }

    /// The most qubits that it may have.
    pub fn limit(&self) -> u8
        ensures { result ≡ self.now.limit }
    {
        self.limit
    }

    /// What every register keeps: a reduced, balanced and small value with a row for each setting of its qubits'
    /// bits, of which there are at most `limit` and 12, and what holds of its next value.
    pub fn facts(&self)
        ensures kept { IsKept self.now.value }
        ensures rows { HasRows self.now.value }
        ensures limit { self.now.limit ≤ 12 }
        ensures few { length self.now.value.qubits ≤ self.now.limit }
        ensures next { IsNextKept self.now.next }
    {
        let _limit = self.limit;
    }

    /// The qubit numbers.
    pub fn qubits(&self) -> &[u8]
        ensures { result.now ≡ self.now.value.qubits }
    {
        &self.value.qubits[..self.value.count as usize]
    }

    /// The place of a qubit number; None exactly where it isn't listed.
    pub fn place_of(&self, q: u8) -> Option<u8>
        ensures { MatchOption result (is_listed self.now.value.qubits q ≡ false) (λ k. (k < length self.now.value.qubits) × (slice_index_or self.now.value.qubits k 0 ≡ q)) }
    {
        self.facts();
        fronts::place_in(self.qubits(), q)
    }

    /// It becomes the one qubit `q` in a basis state.
    pub fn set_basis(&mut self, q: u8, bit: bool)
        ensures { self.new ≡ record self.old { value = basis_state q bit } }
    {
        fronts::write_number(&mut self.value.qubits, q);
        fronts::write_basis(&mut self.value.entries, bit);
        self.value.count = 1;
        self.value.rows = 2;
        self.value.weight = ONE;
    }

    /// It becomes two qubits, in the sum of the rows in which both bits agree.
    pub fn set_pair(&mut self, p: u8, q: u8)
        requires apart { p ≢ q }
        requires room { 2 ≤ self.old.limit }
        ensures { self.new ≡ record self.old { value = pair_state p q } }
    {
        fronts::write_two(&mut self.value.qubits, p, q);
        fronts::write_pair(&mut self.value.entries);
        self.value.count = 2;
        self.value.rows = 4;
        self.value.weight = Weight { x: 2, y: 0 };
    }

    /// It has no qubit, as new.
    pub fn clear(&mut self)
        ensures { self.new ≡ record { limit = self.old.limit; value = no_qubit; next = empty } }
    {
        fronts::write_one(&mut self.value.entries);
        self.value.count = 0;
        self.value.rows = 1;
        self.value.weight = ONE;
        self.stage = Stage::Empty;
    }

    /// The prepared value is a copy of the register's value.
    pub fn prepare_same(&mut self)
        ensures { self.new ≡ record self.old { next = prepared self.old.value } }
    {
        self.next.take_head(&self.value);
        fronts::copy_front(&mut self.next.entries, &self.value.entries, self.value.rows);
        self.stage = Stage::Prepared;
    }

    /// The prepared value is the one qubit `q` in a basis state.
    pub fn prepare_basis(&mut self, q: u8, bit: bool)
        ensures { self.new ≡ record self.old { next = prepared (basis_state q bit) } }
    {
        fronts::write_number(&mut self.next.qubits, q);
        fronts::write_basis(&mut self.next.entries, bit);
        self.next.count = 1;
        self.next.rows = 2;
        self.next.weight = ONE;
        self.stage = Stage::Prepared;
    }

    /// The prepared value is two qubits, in the sum of the rows in which both bits agree.
    pub fn prepare_pair(&mut self, p: u8, q: u8)
        requires apart { p ≢ q }
        requires room { 2 ≤ self.old.limit }
        ensures { self.new ≡ record self.old { next = prepared (pair_state p q) } }
    {
        fronts::write_two(&mut self.next.qubits, p, q);
        fronts::write_pair(&mut self.next.entries);
        self.next.count = 2;
        self.next.rows = 4;
        self.next.weight = Weight { x: 2, y: 0 };
        self.stage = Stage::Prepared;
    }

    /// The prepared value has no qubit.
    pub fn prepare_none(&mut self)
        ensures { self.new ≡ record self.old { next = prepared no_qubit } }
    {
        fronts::write_one(&mut self.next.entries);
        self.next.count = 0;
        self.next.rows = 1;
        self.next.weight = ONE;
        self.stage = Stage::Prepared;
    }

    /// Opens a draft of zeros.
    pub fn begin(&mut self, qubits: &[u8])
        requires distinct { AreDistinct qubits.now }
        requires few { length qubits.now ≤ self.old.limit }
        ensures { self.new ≡ record self.old { next = draft (zeros qubits.now) } }
    {
        self.facts();
        let rows = fronts::rows_of(qubits.len());
        fronts::write_numbers(&mut self.next.qubits, qubits);
        fronts::clear_front(&mut self.next.entries, rows);
        self.next.count = qubits.len() as u8;
        self.next.rows = rows;
        self.stage = Stage::Open;
    }

    /// Opens a draft of the register's own value.
    pub fn begin_same(&mut self)
        ensures { self.new ≡ record self.old { next = draft self.old.value } }
    {
        self.prepare_same();
        self.stage = Stage::Weighed;
    }

    /// Writes a row of the draft.
    pub fn put(&mut self, row: u16, z: Omega)
        requires open { IsDraft self.old.next }
        requires row { row < length (next_value self.old.next).list }
        requires range { CoordinatesBelow (2 ^ 62) (omega_value z) }
        ensures { self.new ≡ record self.old { next = draft (with_row (next_value self.old.next) row (omega_value z)) } }
    {
        self.next.entries[row as usize] = z;
        self.stage = Stage::Open;
    }

    /// Tells the weight of the draft, which `seal` then needn't sum up.
    pub fn weigh(&mut self, weight: Weight)
        requires open { IsDraft self.old.next }
        requires weight { weight_value weight ≡ total_weight (next_value self.old.next).list }
        ensures { self.new ≡ self.old }
    {
        self.next.weight = weight;
        self.stage = Stage::Weighed;
    }

    /// Makes of each two rows of the draft that differ in the bit at the place their sum and their difference,
    /// as the gate H does.
    pub fn mix_rows(&mut self, place: u8)
        requires open { IsDraft self.old.next }
        requires place { place < length (next_value self.old.next).qubits }
        requires small { (total_weight (next_value self.old.next).list).x <ℤ pos (2 ^ 121) }
        ensures { IsGateStep (matrix H) place 2 self.old self.new }
    {
        rows::mix_front(&mut self.next.entries, self.next.rows, place);
        self.next.weight = next_weight(self.stage, self.next.weight);
    }

    /// Turns the rows of the draft or of the prepared value whose bit at the place is 1 by so many eighths (at
    /// most 7), as the gate ROT_Z does.
    pub fn turn_rows(&mut self, place: u8, eighths: u8)
        requires present { IsPresent self.old.next }
        requires place { place < length (next_value self.old.next).qubits }
        requires eighths { eighths < 8 }
        requires small { (total_weight (next_value self.old.next).list).x <ℤ pos (2 ^ 122) }
        ensures { IsGateStep (matrix (RotZ eighths)) place 1 self.old self.new }
    {
        rows::turn_front(&mut self.next.entries, self.next.rows, place, eighths);
    }

    /// Exchanges each two rows of the draft or of the prepared value that differ in the bit at the place, as the
    /// gate X does.
    pub fn exchange_rows(&mut self, place: u8)
        requires present { IsPresent self.old.next }
        requires place { place < length (next_value self.old.next).qubits }
        ensures { IsGateStep (matrix X) place 1 self.old self.new }
    {
        rows::exchange_front(&mut self.next.entries, self.next.rows, place);
    }

    /// Exchanges each two rows of the prepared value that differ in the bit at the target, where that at the
    /// control is 1, as the gate CNOT does.
    pub fn exchange_rows_where(&mut self, control: u8, target: u8)
        requires prepared { IsPrepared self.old.next }
        requires apart { control ≢ target }
        requires control { control < length (next_value self.old.next).qubits }
        requires target { target < length (next_value self.old.next).qubits }
        ensures { IsTwoGateStep Cnot control target self.old self.new }
    {
        controlled::exchange_where_front(&mut self.next.entries, self.next.rows, control, target);
    }

    /// Negates the rows of the prepared value in which the bits at both places are 1, as the gate CPHASE does.
    pub fn negate_rows_where(&mut self, one: u8, two: u8)
        requires prepared { IsPrepared self.old.next }
        requires apart { one ≢ two }
        requires one { one < length (next_value self.old.next).qubits }
        requires two { two < length (next_value self.old.next).qubits }
        ensures { IsTwoGateStep Cphase one two self.old self.new }
    {
        controlled::negate_where_front(&mut self.next.entries, self.next.rows, one, two);
    }

    /// Reduces and balances the draft and prepares it; TooLarge, with the least size of the draft's state, exactly
    /// where that is 2^60 or more, which no fully reduced draft can be. Then draft and prepared value are gone.
    pub fn seal(&mut self, how: Reduce) -> Result<(), TooLarge>
        requires open { IsDraft self.old.next }
        requires nonzero { IsNonzero (next_value self.old.next).list }
        requires small { (total_weight (next_value self.old.next).list).x <ℤ pos (2 ^ 122) }
        requires divisors { CanReduce how (next_value self.old.next).list }
        ensures { MatchResult result (λ _. IsSealed self.old self.new) (λ e. IsRefused self.old self.new e.size) }
    {
        match how {
            Reduce::Delta => self.seal_draft(),
            Reduce::Full => {
                self.divide_draft();
                self.seal_draft()
            }
        }
    }

    /// Divides the draft by a greatest common divisor of its entries, unless all its common divisors are powers
    /// of 1 - w, which `seal_draft` divides by.
    fn divide_draft(&mut self)
        requires open { IsDraft self.old.next }
        requires nonzero { IsNonzero (next_value self.old.next).list }
        requires small { (total_weight (next_value self.old.next).list).x <ℤ pos (2 ^ 60) }
        ensures after { self.new ≡ record self.old { next = draft record { qubits = (next_value self.old.next).qubits; list = (next_value self.new.next).list } } }
        ensures rows { length (next_value self.new.next).list ≡ length (next_value self.old.next).list }
        ensures scaled { IsScaled (next_value self.new.next).list (next_value self.old.next).list }
        ensures divisors { HasDeltaDivisors (next_value self.new.next).list }
        ensures small { (total_weight (next_value self.new.next).list).x <ℤ pos (2 ^ 62) }
    {
        if let Some(common) = common::common_front(&self.next.entries, self.next.rows) {
            common::divide_front(&mut self.next.entries, self.next.rows, common);
            self.stage = Stage::Open;
        }
    }

    /// Divides the draft by powers of 1 - w, which are all that its entries have in common, balances and
    /// prepares it.
    fn seal_draft(&mut self) -> Result<(), TooLarge>
        requires open { IsDraft self.old.next }
        requires nonzero { IsNonzero (next_value self.old.next).list }
        requires small { (total_weight (next_value self.old.next).list).x <ℤ pos (2 ^ 122) }
        requires divisors { HasDeltaDivisors (next_value self.old.next).list }
        ensures { MatchResult result (λ _. IsSealed self.old self.new) (λ e. IsRefused self.old self.new e.size) }
    {
        let weight = self.draft_weight();
        self.next.weight = normal::normalize_front(&mut self.next.entries, self.next.rows, weight);
        if self.next.weight.x < SIZE_LIMIT {
            self.stage = Stage::Prepared;
            Ok(())
        } else {
            let size = self.next.weight.x;
            self.stage = Stage::Empty;
            Err(TooLarge { size })
        }
    }

    /// The weight of the draft.
    fn draft_weight(&self) -> Weight
        requires open { IsDraft self.now.next }
        requires small { (total_weight (next_value self.now.next).list).x <ℤ pos (2 ^ 122) }
        ensures { weight_value result ≡ total_weight (next_value self.now.next).list }
    {
        match self.stage {
            Stage::Weighed => self.next.weight,
            _ => normal::front_weight(&self.next.entries, self.next.rows),
        }
    }

    /// Two rows of the prepared value change places.
    pub fn swap_rows(&mut self, one: u16, two: u16)
        requires prepared { IsPrepared self.old.next }
        requires one { one < length (next_value self.old.next).list }
        requires two { two < length (next_value self.old.next).list }
        ensures { self.new ≡ record self.old { next = prepared (with_row (with_row (next_value self.old.next) one (at (next_value self.old.next).list two)) two (at (next_value self.old.next).list one)) } }
    {
        let first = self.next.entries[one as usize];
        self.next.entries[one as usize] = self.next.entries[two as usize];
        self.next.entries[two as usize] = first;
    }

    /// A row of the prepared value is negated.
    pub fn negate_row(&mut self, row: u16)
        requires prepared { IsPrepared self.old.next }
        requires row { row < length (next_value self.old.next).list }
        ensures { self.new ≡ record self.old { next = prepared (with_row (next_value self.old.next) row (negated (at (next_value self.old.next).list row))) } }
    {
        self.next.entries[row as usize] = self.next.entries[row as usize].negated();
    }

    /// The prepared value becomes the register's, and none is prepared.
    pub fn flip(&mut self)
        requires { IsPrepared self.old.next }
        ensures { self.new ≡ record self.old { value = next_value self.old.next; next = empty } }
    {
        std::mem::swap(&mut self.value, &mut self.next);
        self.stage = Stage::Empty;
    }

    /// Draft and prepared value are gone.
    pub fn forget(&mut self)
        ensures { self.new ≡ record self.old { next = empty } }
    {
        self.stage = Stage::Empty;
    }

    /// The number of qubits of the prepared value; None exactly where none is prepared.
    pub fn prepared(&self) -> Option<u8>
        ensures { result ≡ prepared_qubits self.now.next }
    {
        match self.stage {
            Stage::Prepared => Some(self.next.count),
            _ => None,
        }
    }
}

/// The weight of a basis state.
const ONE: Weight = Weight { x: 1, y: 0 };
