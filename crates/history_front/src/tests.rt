// Tests: two threads over one history, and fronts that meet.
ghost use Rattle.std.specs.Prelude.{◌≡◌, IfSome, length, ◌≤◌, ◌<◌, ◌^◌, [], ◌∷◌, ◌++◌};
ghost use mathlib.Core.List.{IsPrefix};

use super::*;
use std::marker::Brand;
use std::process::Abort;
use std::sync::{Mutex, Wait};
use std::test::*;
use std::thread::{Threads, join};

// What lies under a lock: the pen, which is known by its type alone.
#[derive(Drop)]
struct Desk<N: Named> {
    pen: Pen<u64, N>,
}

// Writes under the lock, and gives back a front that has seen all of it.
fn write<N: Named>(
    rt: &impl Wait,
    history: &History<u64, N>,
    desk: &Mutex<Desk<N>>,
    entry: u64,
) -> Option<Front<u64, N>>
    ensures { IfSome result (λ f. (0 < length f.seen) × (f.known ≡ length f.seen)) }
{
    let mut desk = desk.lock(rt);
    let pen = &mut desk.pen;
    if pen.len() >= 1000 {
        return None;
    }
    pen.append(history, &entry);
    Some(pen.copy(history))
}

fn two_writers<N: Named + Send + Sync, R: Threads + Wait + Abort + Sync>(
    rt: &R,
    blank: Blank<u64>,
) -> Result<(), Fail>
    requires { blank ≡ N.table }
{
    let Begun { history, pen } = blank.open::<N>();
    let desk = Mutex::new(Desk { pen });
    let (a, b) = join(
        rt,
        || write(rt, &history, &desk, 3),
        || write(rt, &history, &desk, 4),
    );
    let mut a = a.ok_or("the first wrote")?;
    let b = b.ok_or("the second wrote")?;
    a.meet(&history, b);
    assert_eq!(rt; a.load(&history), 2);
    let Desk { mut pen } = desk.into_inner();
    pen.meet(&history, a);
    assert_eq!(rt; pen.len(), 2);
    Ok(())
}

#[test]
fn two_threads_write(rt: HostRuntime) -> Result<(), Fail> {
    let blank = Blank::new(rt.alloc())?;
    two_writers::<Brand, _>(&rt, blank)
}

fn old_front<N: Named>(rt: &impl Abort, blank: Blank<u64>) -> Result<(), Fail>
    requires { blank ≡ N.table }
{
    let Begun { history, mut pen } = blank.open::<N>();
    let mut old = pen.copy(&history);
    assert_eq!(rt; old.load(&history), 0);
    pen.append(&history, &7);
    let mut same = old.copy(&history);
    assert_eq!(rt; same.load(&history), 1);
    pen.append(&history, &8);
    assert_eq!(rt; old.load(&history), 2);
    old.meet(&history, same);
    pen.meet(&history, old);
    assert_eq!(rt; pen.len(), 2);
    Ok(())
}

#[test]
fn an_old_front_loads_what_was_appended(rt: HostRuntime) -> Result<(), Fail> {
    let blank = Blank::new(rt.alloc())?;
    old_front::<Brand>(&rt, blank)
}
