// Tests: which number is stale, a full journal, its end, and two threads over it. The network has one node, which asks
// for a pair with itself and is refused, so that each entry touches the node's cell.
ghost use Rattle.std.specs.Prelude.{◌≡◌, ◌≤◌, ◌<◌, ℕ, [], ◌∷◌, slice_get, vec_len, None, false, Some, IsSome, true, IfOk};
ghost use Rattle.cqc_model.specs.declared.Instr.TheVariants.{Epr};
ghost use Rattle.cqc_model.specs.declared.Fault.TheVariants.{General};
ghost use Rattle.network_model.specs.declared.CoreReply.TheVariants.{Error};
ghost use Rattle.register_locks.specs.Slots.{held, held_with};
ghost use Rattle.commit_journal.specs.Views.{Stamp};

use super::*;
use cqc_model::{Command, Fault, Instr, Remote};
use history_front::{Blank, Named};
use network_model::{Call, CoreReply, Entry, JournalFull};
use register_locks::{Hold, Locks};
use std::alloc::Global;
use std::marker::Brand;
use std::process::Abort;
use std::sync::{Mutex, Wait};
use std::test::*;
use std::thread::{Threads, join};

// A cell without a value, which fits every history.
#[derive(Drop)]
struct Flag {
    is_ready: bool,
}

impl Cells for Flag {
    ghost use Rattle.std.specs.Prelude.{◌≡◌, ⊤, false};

    ghost fits = { λ shape n c h. ⊤ };

    ghost has_next = { λ c. c.is_ready };

    ghost settled = { λ c. record { is_ready = false } };

    ghost forgotten = { λ c. record { is_ready = false } };

    ghost none_settled = { λ c i. false };

    ghost none_forgotten = { λ c i. false };

    ghost value_stays = { λ shape n c h fit. tt };

    ghost alike = { λ shape n c d h k limit legal a b e. tt };

    ghost stays = { λ shape n c h e limit legal fit missed. tt };

    fn ready(&self) -> bool {
        self.is_ready
    }

    fn settle(&mut self) {
        self.is_ready = false;
    }

    fn forget(&mut self) {
        self.is_ready = false;
    }
}

// The refused call of a seat.
fn refused(seat: u16) -> Entry
    ensures call { result.call ≡ record { seat = seat; serial = 0; node = 0; app = 0; command = record { qubit = 0; instr = Epr (record { app = 0; port = 1; node = 1 }); notify = false; block = false } } }
    ensures reply { (result.word ≡ None) × (result.reply ≡ Error General) }
{
    let instr = Instr::Epr(Remote {
        app: 0,
        port: 1,
        node: 1,
    });
    let command = Command {
        qubit: 0,
        instr,
        notify: false,
        block: false,
    };
    let call = Call {
        seat,
        serial: 0,
        node: 0,
        app: 0,
        command,
    };
    Entry {
        call,
        word: None,
        reply: CoreReply::Error(Fault::General),
    }
}

// Prepares the node's cell.
fn prepare<N: Named + Framed>(hold: &mut Hold<'_, Stamped<Flag, N>, 1>)
    requires { IsSome (held hold.old.slots 0) }
    ensures { (w : Stamp Flag) × (held hold.old.slots 0 ≡ Some w) × (hold.new.slots ≡ held_with hold.old.slots 0 (record w { cell = Some (record { is_ready = true }) })) }
{
    let stamped = hold.get(0);
    let _old = stamped.lift();
    stamped.lay(Flag { is_ready: true });
}

// Commits the refused call of a pass.
fn commit_one<N: Named + Framed>(
    rt: &impl Wait,
    locks: &Locks<Stamped<Flag, N>>,
    journal: &Mutex<Journal<N>>,
    pass: &mut Pass<N>,
) -> Result<u32, CommitFault>
    requires locks { locks.now ≡ 1 }
    requires network { (N.shape ≡ record { places = record { address = 1; port = 1 } ∷ []; room = 1; limit = 1 }) × (N.cells ≡ 1) }
    ensures { pass.new.seat ≡ pass.old.seat }
{
    let mut hold = locks.begin::<1>();
    hold.take(rt, 0);
    prepare(&mut hold);
    let entry = refused(pass.seat());
    let mut journal = journal.lock(rt);
    commit(&mut *journal, &mut hold, pass, entry)
}

// Glances at the journal with the cell held.
fn look<N: Named + Framed>(
    rt: &impl Wait,
    locks: &Locks<Stamped<Flag, N>>,
    journal: &Mutex<Journal<N>>,
    pass: &mut Pass<N>,
) -> Result<u32, Stale>
    requires { locks.now ≡ 1 }
    ensures { pass.new.seat ≡ pass.old.seat }
{
    let mut hold = locks.begin::<1>();
    hold.take(rt, 0);
    let mut journal = journal.lock(rt);
    glance(&mut *journal, &mut hold, pass)
}

// Whether the cell has a next value.
fn is_prepared<N: Named + Framed>(rt: &impl Wait, locks: &Locks<Stamped<Flag, N>>) -> bool
    requires { locks.now ≡ 1 }
{
    let mut hold = locks.begin::<1>();
    hold.take(rt, 0);
    match hold.peek(0) {
        Some(stamped) => stamped.is_ready(),
        None => false,
    }
}

// A network of one node with two seats. Its cell was stamped twice: one stamp gets old when the other's cell is committed,
// and so does the twin of the first seat's pass.
#[derive(Drop)]
struct Table<N: Named + Framed> {
    journal: Mutex<Journal<N>>,
    locks: Locks<Stamped<Flag, N>>,
    others: Locks<Stamped<Flag, N>>,
    first: Pass<N>,
    twin: Pass<N>,
    second: Pass<N>,
    ghost one_cell: { (locks ≡ 1) × (others ≡ 1) },
    ghost network: { (N.shape ≡ record { places = record { address = 1; port = 1 } ∷ []; room = 1; limit = 1 }) × (N.cells ≡ 1) × (N.seats ≡ 2) },
    ghost seats: { (first.seat ≡ 0) × (twin.seat ≡ 0) × (second.seat ≡ 1) },
}

// The node's cell behind a lock.
fn lock_one<N: Named + Framed>(
    alloc: Global,
    journal: &mut Journal<N>,
) -> Result<Locks<Stamped<Flag, N>>, Fail>
    requires empty { journal.old ≡ [] }
    requires cells { N.cells ≡ 1 }
    ensures same { journal.new ≡ journal.old }
    ensures one { IfOk result (λ l. l ≡ 1) }
{
    let cell = journal.stamp(0, Flag { is_ready: false });
    let mut cells = Vec::new(alloc);
    cells.push(cell)?;
    Ok(Locks::new(alloc, cells)?)
}

// A journal of two entries at most.
fn open<N: Named + Framed>(alloc: Global, blank: Blank<Entry>) -> Result<Table<N>, Fail>
    requires name { blank ≡ N.table }
    requires network { (N.shape ≡ record { places = record { address = 1; port = 1 } ∷ []; room = 1; limit = 1 }) × (N.cells ≡ 1) }
    requires frame { (N.capacity ≡ 2) × (N.seats ≡ 2) }
{
    let mut journal = Journal::new(alloc, blank, 2, 1, 2)?;
    let locks = lock_one(alloc, &mut journal)?;
    let others = lock_one(alloc, &mut journal)?;
    let first = journal.pass(0);
    let twin = journal.pass(0);
    let second = journal.pass(1);
    Ok(Table {
        journal: Mutex::new(journal),
        locks,
        others,
        first,
        twin,
        second,
    })
}

// Ends the journal with two passes.
fn close_two<N: Named + Framed>(
    alloc: Global,
    journal: Mutex<Journal<N>>,
    first: Pass<N>,
    second: Pass<N>,
) -> Result<Result<Vec<Entry>, Stale>, Fail>
    requires { (N.seats ≡ 2) × (first.seat ≡ 0) × (second.seat ≡ 1) }
{
    let mut passes = Vec::new(alloc);
    passes.push(first)?;
    passes.push(second)?;
    Ok(journal.into_inner().close(passes))
}

fn stale<N: Named + Framed, R: Wait + Abort>(
    rt: &R,
    alloc: Global,
    table: Table<N>,
) -> Result<(), Fail> {
    let Table {
        journal,
        locks,
        others,
        mut first,
        mut twin,
        second,
    } = table;
    assert!(rt; commit_one(rt, &locks, &journal, &mut first) == Ok(0));
    let cell = Stale {
        number: 0,
        kept: 1,
        found: 0,
    };
    assert!(rt; commit_one(rt, &others, &journal, &mut twin) == Err(CommitFault::Stale(cell)));
    assert!(rt; look(rt, &others, &journal, &mut twin) == Err(cell));
    let pass = Stale { number: 1, ..cell };
    assert!(rt; commit_one(rt, &locks, &journal, &mut twin) == Err(CommitFault::Stale(pass)));
    match close_two(alloc, journal, twin, second)? {
        Ok(_) => Err("the twin's number is old")?,
        Err(found) => assert!(rt; found == pass),
    }
    Ok(())
}

fn full<N: Named + Framed, R: Wait + Abort>(
    rt: &R,
    alloc: Global,
    table: Table<N>,
) -> Result<(), Fail> {
    let (journal, locks) = (table.journal, table.locks);
    let (mut first, mut second) = (table.first, table.second);
    assert!(rt; commit_one(rt, &locks, &journal, &mut first) == Ok(0));
    assert!(rt; commit_one(rt, &locks, &journal, &mut second) == Ok(1));
    assert!(rt; !is_prepared(rt, &locks));
    let full = CommitFault::Full(JournalFull { entries: 2 });
    assert!(rt; commit_one(rt, &locks, &journal, &mut first) == Err(full));
    assert!(rt; is_prepared(rt, &locks));
    assert!(rt; look(rt, &locks, &journal, &mut first) == Ok(2));
    assert!(rt; !is_prepared(rt, &locks));
    match close_two(alloc, journal, first, second)? {
        Ok(entries) => assert!(rt; entries.len() == 2),
        Err(_) => Err("both numbers are right")?,
    }
    Ok(())
}

// A thread's part: commits one entry.
fn work<N: Named + Framed>(
    rt: &impl Wait,
    locks: &Locks<Stamped<Flag, N>>,
    journal: &Mutex<Journal<N>>,
    mut pass: Pass<N>,
) -> (Pass<N>, bool)
    requires locks { locks.now ≡ 1 }
    requires network { (N.shape ≡ record { places = record { address = 1; port = 1 } ∷ []; room = 1; limit = 1 }) × (N.cells ≡ 1) }
    ensures { result.0.seat ≡ pass.seat }
{
    let done = commit_one(rt, locks, journal, &mut pass).is_ok();
    (pass, done)
}

fn two_workers<N: Named + Framed + Send + Sync, R: Threads + Wait + Abort + Sync>(
    rt: &R,
    alloc: Global,
    table: Table<N>,
) -> Result<(), Fail> {
    let (journal, locks) = (table.journal, table.locks);
    let (first, second) = (table.first, table.second);
    let ((first, one), (second, two)) = join(
        rt,
        || work(rt, &locks, &journal, first),
        || work(rt, &locks, &journal, second),
    );
    assert!(rt; one && two && first.made() == 1 && second.made() == 1);
    match close_two(alloc, journal, first, second)? {
        Ok(entries) => assert!(rt; entries.len() == 2),
        Err(_) => Err("both numbers are right")?,
    }
    Ok(())
}

// What is tried on a new table.
#[derive(Clone, Copy, Drop)]
enum Part {
    Stale,
    Full,
    Threads,
}

fn on_a_table<N: Named + Framed + Send + Sync, R: Threads + Wait + Abort + Sync>(
    rt: &R,
    alloc: Global,
    blank: Blank<Entry>,
    part: Part,
) -> Result<(), Fail>
    requires name { blank ≡ N.table }
    requires network { (N.shape ≡ record { places = record { address = 1; port = 1 } ∷ []; room = 1; limit = 1 }) × (N.cells ≡ 1) }
    requires frame { (N.capacity ≡ 2) × (N.seats ≡ 2) }
{
    let table = open::<N>(alloc, blank)?;
    match part {
        Part::Stale => stale(rt, alloc, table),
        Part::Full => full(rt, alloc, table),
        Part::Threads => two_workers(rt, alloc, table),
    }
}

fn try_part<R: Threads + Wait + Abort + Sync>(
    rt: &R,
    alloc: Global,
    part: Part,
) -> Result<(), Fail> {
    let blank = Blank::new(alloc)?;
    on_a_table::<Brand, _>(rt, alloc, blank, part)
}

#[test]
fn the_first_number_that_differs_is_told(rt: HostRuntime) -> Result<(), Fail> {
    try_part(&rt, rt.alloc(), Part::Stale)
}

#[test]
fn a_full_journal_leaves_what_was_prepared(rt: HostRuntime) -> Result<(), Fail> {
    try_part(&rt, rt.alloc(), Part::Full)
}

#[test]
fn two_threads_commit(rt: HostRuntime) -> Result<(), Fail> {
    try_part(&rt, rt.alloc(), Part::Threads)
}
