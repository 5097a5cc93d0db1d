//! Measurements: the outcome, the rows that stay, and the place of a measured qubit.
ghost use Rattle.std.specs.Prelude.{◌≡◌, ◌<◌, ◌+◌, ◌^◌, true, false, None, Some, MatchOption};
ghost use Rattle.network_model.specs.Kinds.{kind_of};
ghost use Rattle.network_model.specs.Step.{measured_reply};
ghost use Rattle.network_model.specs.declared.Kind.TheVariants.{Measure};
ghost use Rattle.core_cells.specs.Cells.{HasHome};
ghost use Rattle.factored_core.specs.Changes.{IsPreparedStep};
ghost use Rattle.factored_core.specs.Ready.{IsOpen};
ghost use Rattle.factored_core.specs.Measurements.{IsTakenBy, IsLeftAs, measured_entry, measured_step, IsMeasured, HasMeasured, IsGivenBack};

use crate::prepared::Prepared;
use crate::refusals::refused;
use crate::slots;
use crate::slots::Spot;
use core_cells::{Board, CellName, PoolCell, held_pool, prepare_node, prepare_pool};
use cqc_model::Fault;
use network_model::{After, Call, CoreReply};
use qron_link::Dice;
use virtual_node::{NodeCell, Shape};

/// A measured qubit: its number and its spot, whether it is alone there, the random word, the outcome, and whether
/// that is told.
#[derive(Clone, Copy, PartialEq, Eq, Debug, Drop)]
pub(crate) struct Measured {
    pub(crate) number: u8,
    pub(crate) spot: Spot,
    pub(crate) alone: bool,
    pub(crate) word: u64,
    pub(crate) outcome: bool,
    pub(crate) told: bool,
}

/// A measurement of the call's own qubit, if that is held, by the dice's next word.
pub(crate) fn measure<B: Board, D: Dice>(
    board: &mut B,
    shape: &Shape,
    call: &Call,
    own: NodeCell,
    after: After,
    told: bool,
    dice: &mut D,
) -> Prepared
    requires open { IsOpen shape.now call.now (B.cells board.old) own }
    requires kind { kind_of call.now.command.instr ≡ Measure after told }
    requires words { D.taken dice.old < 2 ^ 63 }
    ensures step { IsPreparedStep shape.now (B.cells board.old) (B.cells board.new) result }
    ensures call { result.entry.call ≡ call.now }
    ensures word { MatchOption result.entry.word (D.taken dice.new ≡ D.taken dice.old)
        (λ w. (w ≡ D.word (D.key dice.old) (D.begun_seat dice.old) (D.begun_serial dice.old) (D.taken dice.old)) × (D.taken dice.new ≡ D.taken dice.old + 1)) }
    ensures key { D.key dice.new ≡ D.key dice.old }
    ensures seat { D.begun_seat dice.new ≡ D.begun_seat dice.old }
    ensures serial { D.begun_serial dice.new ≡ D.begun_serial dice.old }
{
    let Some(number) = own.handles().find(call.app, call.command.qubit) else {
        return refused(board, call, &own, None, Fault::Unknown);
    };
    let measured = drawn(board, number, dice.next(), told);
    match after {
        After::TakenOut => taken_out(board, shape, call, own, measured),
        After::Left => left(board, shape, call, &own, measured, measured.outcome),
        After::Cleared => left(board, shape, call, &own, measured, false),
    }
}

/// Where a qubit is, and what a word draws.
fn drawn<B: Board>(board: &mut B, number: u8, word: u64, told: bool) -> Measured
    requires { HasHome (B.cells board.old) number }
    ensures same { B.cells board.new ≡ B.cells board.old }
    ensures measured { IsMeasured (B.cells board.old) result }
    ensures number { result.number ≡ number }
    ensures word { result.word ≡ word }
    ensures told { result.told ≡ told }
{
    let spot = slots::spot_of(board, number);
    let alone = slots::count(board, spot.slot) == 1;
    let split = slots::weights(board, spot);
    Measured {
        number,
        spot,
        alone,
        word,
        outcome: born_draw::outcome(word, split.one, split.whole),
        told,
    }
}

/// The measured qubit is taken out: its number is free, and so is its slot where it was alone.
fn taken_out<B: Board>(
    board: &mut B,
    shape: &Shape,
    call: &Call,
    mut own: NodeCell,
    measured: Measured,
) -> Prepared
    requires measured { HasMeasured shape.now call.now (B.cells board.old) own measured }
    requires taken { IsTakenBy call.now measured }
    ensures step { IsPreparedStep shape.now (B.cells board.old) (B.cells board.new) result }
    ensures entry { result.entry ≡ measured_entry call.now measured }
{
    shape.facts();
    own.drop_handle(call.app, call.command.qubit);
    let pool = given_back(held_pool(board), measured);
    prepare_node(board, call.node, &own);
    prepare_pool(board, pool);
    slots::take_out(board, measured.spot, measured.outcome);
    step_of(call, measured, None)
}

/// The measured qubit stays with a value of its own: in its slot where it is alone, else in the least free slot, and
/// the others stay.
fn left<B: Board>(
    board: &mut B,
    shape: &Shape,
    call: &Call,
    own: &NodeCell,
    measured: Measured,
    value: bool,
) -> Prepared
    requires measured { HasMeasured shape.now call.now (B.cells board.old) own.now measured }
    requires left { IsLeftAs call.now measured value }
    ensures step { IsPreparedStep shape.now (B.cells board.old) (B.cells board.new) result }
    ensures entry { result.entry ≡ measured_entry call.now measured }
{
    shape.facts();
    let mut pool = held_pool(board);
    if measured.alone {
        prepare_node(board, call.node, own);
        prepare_pool(board, pool);
        slots::set(board, measured.spot.slot, measured.number, value);
        return step_of(call, measured, None);
    }
    pool.facts();
    let Some(slot) = pool.least_free_slot() else {
        unreachable!()
    };
    pool.take_slot(slot);
    prepare_node(board, call.node, own);
    prepare_pool(board, pool);
    slots::take_out(board, measured.spot, measured.outcome);
    slots::set(board, slot, measured.number, value);
    step_of(call, measured, Some(slot))
}

/// A pool with the measured qubit's number, and with its slot where it was alone.
fn given_back(mut pool: PoolCell, measured: Measured) -> PoolCell
    requires number { measured.number < 128 }
    requires slot { measured.spot.slot < 128 }
    ensures { IsGivenBack measured pool result }
{
    pool.free_number(measured.number);
    if measured.alone {
        pool.free_slot(measured.spot.slot);
    }
    pool
}

/// The step of a measurement: the qubit's slot changes, and maybe another.
fn step_of(call: &Call, measured: Measured, other: Option<u8>) -> Prepared
    ensures { result ≡ measured_step call.now measured other }
{
    let reply = answer(measured.told, measured.outcome);
    let own = CellName::Node(call.node);
    let home = CellName::Slot(measured.spot.slot);
    let other = other.map(|slot| CellName::Slot(slot));
    let touched = [Some(own), Some(home), Some(CellName::Pool), other];
    Prepared::of(call, Some(measured.word), reply, touched)
}

/// The reply to a measurement, whose outcome is told or not.
#[tactic(auto, unfolding(network_model::specs::Step::measured_reply))]
fn answer(told: bool, outcome: bool) -> CoreReply
    ensures { result ≡ measured_reply told outcome }
{
    if told {
        CoreReply::Outcome(outcome)
    } else {
        CoreReply::Silent
    }
}
