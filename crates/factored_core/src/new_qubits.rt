//! New qubits, alone and in pairs, and what they take of the pool.
ghost use Rattle.std.specs.Prelude.{◌≡◌, ◌<◌, ◌≤◌, ℕ, length, slice_get, true, None, Some};
ghost use Rattle.state_model.specs.Row.{is_listed};
ghost use Rattle.network_model.specs.Kinds.{kind_of};
ghost use Rattle.network_model.specs.declared.Kind.TheVariants.{Make, Pair as PairKind};
ghost use Rattle.network_model.specs.declared.Place.{Place as PlaceIs};
ghost use Rattle.virtual_node.specs.Node.{load_of, with_handle};
ghost use Rattle.epr_transfer.specs.Transfer.{handle_of, next_id};
ghost use Rattle.core_cells.specs.Pool.{Pool};
ghost use Rattle.core_cells.specs.Nodes.{NodeValues};
ghost use Rattle.factored_core.specs.Changes.{IsPreparedStep};
ghost use Rattle.factored_core.specs.Needs.{other_of};
ghost use Rattle.factored_core.specs.Ready.{IsOpen, IsReady};
ghost use Rattle.factored_core.specs.Replies.{in_new_slot as in_new_slot_is};
ghost use Rattle.factored_core.specs.declared.new_qubits.Vacancy.{Vacancy as VacancyIs};
ghost use Rattle.factored_core.specs.Vacancies.{IsTaken, IsPairTaken, info_of};

use crate::needs::other_at;
use crate::prepared::Prepared;
use crate::refusals::refused;
use crate::slots;
use core_cells::{Board, CellName, PoolCell, held_node, held_pool, prepare_node, prepare_pool};
use cqc_model::{Fault, PairInfo, Remote};
use network_model::{Call, CoreReply};
use qubit_handles::Handle;
use virtual_node::{NodeCell, Shape};

/// The number and the slot of a new qubit.
#[derive(Clone, Copy, PartialEq, Eq, Debug, Drop)]
struct Vacancy {
    number: u8,
    slot: u8,
}

/// The slot and the numbers of a new pair, and the number of the pair itself.
#[derive(Clone, Copy, PartialEq, Eq, Debug, Drop)]
struct PairVacancy {
    first: Vacancy,
    second: u8,
    pair: u32,
}

/// A new qubit, where the own node has room.
pub(crate) fn make<B: Board>(board: &mut B, shape: &Shape, call: &Call, own: NodeCell) -> Prepared
    requires open { IsOpen shape.now call.now (B.cells board.old) own }
    requires kind { kind_of call.now.command.instr ≡ Make }
    ensures step { IsPreparedStep shape.now (B.cells board.old) (B.cells board.new) result }
    ensures call { result.entry.call ≡ call.now }
    ensures word { result.entry.word ≡ None }
{
    if own.held() < shape.room() {
        made(board, shape, call, own)
    } else {
        refused(board, call, &own, None, Fault::NoQubit)
    }
}

/// A new qubit in state 0, in the least free slot.
fn made<B: Board>(board: &mut B, shape: &Shape, call: &Call, mut own: NodeCell) -> Prepared
    requires ready { IsReady shape.now call.now (B.cells board.old) own }
    requires kind { kind_of call.now.command.instr ≡ Make }
    requires room { load_of own < shape.now.room }
    ensures step { IsPreparedStep shape.now (B.cells board.old) (B.cells board.new) result }
    ensures call { result.entry.call ≡ call.now }
    ensures word { result.entry.word ≡ None }
{
    own.facts();
    shape.facts();
    let mut pool = held_pool(board);
    let vacancy = take_least(&mut pool);
    let id = give(&mut own, call.app, vacancy.number);
    prepare_pool(board, pool);
    prepare_node(board, call.node, &own);
    slots::set(board, vacancy.slot, vacancy.number, false);
    in_new_slot(call, CoreReply::New(id), None, vacancy.slot)
}

/// A new pair with the node at a remote place, where that is another node, both have room, and a group may have two.
pub(crate) fn pair<B: Board>(
    board: &mut B,
    shape: &Shape,
    call: &Call,
    own: NodeCell,
    remote: &Remote,
) -> Prepared
    requires open { IsOpen shape.now call.now (B.cells board.old) own }
    requires kind { kind_of call.now.command.instr ≡ PairKind remote.now }
    ensures step { IsPreparedStep shape.now (B.cells board.old) (B.cells board.new) result }
    ensures call { result.entry.call ≡ call.now }
    ensures word { result.entry.word ≡ None }
{
    let Some(other) = other_at(shape, call.node, remote) else {
        return refused(board, call, &own, None, Fault::General);
    };
    let to = held_node(board, other);
    to.facts();
    if own.held() >= shape.room() || to.held() >= shape.room() {
        return refused(board, call, &own, Some(other), Fault::NoQubit);
    }
    if shape.limit() < 2 {
        return refused(board, call, &own, Some(other), Fault::General);
    }
    paired(board, shape, call, own, other, to, remote)
}

/// A new pair: the first half is held, and the other is the last arrival of another node.
fn paired<B: Board>(
    board: &mut B,
    shape: &Shape,
    call: &Call,
    mut own: NodeCell,
    other: u8,
    mut to: NodeCell,
    remote: &Remote,
) -> Prepared
    requires ready { IsReady shape.now call.now (B.cells board.old) own }
    requires kind { kind_of call.now.command.instr ≡ PairKind remote.now }
    requires other { other_of shape.now call.now ≡ Some other }
    requires copied { (w : NodeValues) → (B.cells board.old).node other ≡ Some w → to ≡ w.now }
    requires own_room { load_of own < shape.now.room }
    requires other_room { load_of to < shape.now.room }
    requires limit { 2 ≤ shape.now.limit }
    ensures step { IsPreparedStep shape.now (B.cells board.old) (B.cells board.new) result }
    ensures call { result.entry.call ≡ call.now }
    ensures word { result.entry.word ≡ None }
{
    own.facts();
    to.facts();
    shape.facts();
    let mut pool = held_pool(board);
    let vacancy = take_pair(&mut pool);
    let info = pair_info(shape, call, remote, vacancy.pair);
    let first = vacancy.first;
    let id = epr_transfer::pair(
        &mut own,
        &mut to,
        call.app,
        remote.app,
        first.number,
        vacancy.second,
        info,
    );
    prepare_pool(board, pool);
    prepare_node(board, call.node, &own);
    prepare_node(board, other, &to);
    slots::set_pair(board, first.slot, first.number, vacancy.second);
    in_new_slot(call, CoreReply::Pair(id, info), Some(other), first.slot)
}

/// What both holders of a pair are told: the own side first.
fn pair_info(shape: &Shape, call: &Call, remote: &Remote, pair: u32) -> PairInfo
    requires { call.now.node < length shape.now.places }
    ensures { (p : PlaceIs) × (slice_get shape.now.places call.now.node ≡ Some p) × (result ≡ info_of p call.now remote.now pair) }
{
    let place = shape.place(call.node);
    PairInfo {
        node_a: place.address,
        port_a: place.port,
        app_a: call.app,
        node_b: remote.node,
        port_b: remote.port,
        app_b: remote.app,
        pair,
    }
}

/// Takes the least free slot and the two least free numbers, and counts a pair.
fn take_pair(pool: &mut PoolCell) -> PairVacancy
    requires number { (q : ℕ) × (is_listed pool.old.numbers q ≡ true) }
    requires slot { (t : ℕ) × (is_listed pool.old.slots t ≡ true) }
    requires second { (v : VacancyIs) (mid : Pool) → IsTaken v pool.old mid → (q : ℕ) × (is_listed mid.numbers q ≡ true) }
    ensures { IsPairTaken result pool.old pool.new }
{
    let first = take_least(pool);
    pool.facts();
    let Some(second) = pool.least_number() else {
        unreachable!()
    };
    pool.take_number(second);
    let pair = pool.next_pair();
    PairVacancy {
        first,
        second,
        pair,
    }
}

/// Takes the least free number and the least free slot.
fn take_least(pool: &mut PoolCell) -> Vacancy
    requires number { (q : ℕ) × (is_listed pool.old.numbers q ≡ true) }
    requires slot { (t : ℕ) × (is_listed pool.old.slots t ≡ true) }
    ensures { IsTaken result pool.old pool.new }
{
    pool.facts();
    let Some(number) = pool.least_number() else {
        unreachable!()
    };
    let Some(slot) = pool.least_free_slot() else {
        unreachable!()
    };
    pool.take_number(number);
    pool.take_slot(slot);
    Vacancy { number, slot }
}

/// Gives an application a qubit under its least id.
fn give(node: &mut NodeCell, app: u16, number: u8) -> u16
    requires room { load_of node.old < 16 }
    ensures id { result ≡ next_id node.old app }
    ensures node { node.new ≡ with_handle node.old (handle_of app result number) }
{
    let id = node.handles().least_id(app);
    node.add_handle(Handle { app, id, number });
    id
}

/// A step that puts new qubits into a slot.
fn in_new_slot(call: &Call, reply: CoreReply, other: Option<u8>, slot: u8) -> Prepared
    ensures { result ≡ in_new_slot_is call.now reply other slot }
{
    let own = CellName::Node(call.node);
    let home = CellName::Slot(slot);
    let other = other.map(|node| CellName::Node(node));
    let touched = [Some(own), Some(home), Some(CellName::Pool), other];
    Prepared::of(call, None, reply, touched)
}
