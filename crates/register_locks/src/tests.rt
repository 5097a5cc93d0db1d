// Tests: values are given back, and locks are taken in order by two threads.
ghost use Rattle.std.specs.Prelude.{◌≡◌, ◌<◌, ◌≤◌, IfOk};

use super::*;
use std::alloc::Global;
use std::sync::Wait;
use std::test::*;
use std::thread::join;

#[derive(Drop)]
struct Cell {
    number: u16,
    value: u64,
}

impl Numbered for Cell {
    ghost number_of = { λ c. c.number };

    fn number(&self) -> u16 {
        self.number
    }
}

// Two cells behind locks, with the values 5 and 6.
fn two_cells(alloc: Global) -> Result<Locks<Cell>, Fail>
    ensures { IfOk result (λ l. l ≡ 2) }
{
    let mut cells = Vec::new(alloc);
    let first = Cell {
        number: 0,
        value: 5,
    };
    cells.push(first)?;
    let second = Cell {
        number: 1,
        value: 6,
    };
    cells.push(second)?;
    Ok(Locks::new(alloc, cells)?)
}

#[test]
fn holds_give_back(rt: HostRuntime) -> Result<(), Fail> {
    let locks = two_cells(rt.alloc())?;
    {
        let mut hold = locks.begin::<2>();
        hold.take(&rt, 0);
        hold.take(&rt, 1);
        hold.get(1).value = 9;
        assert!(rt; hold.has(0) && hold.has(1) && !hold.has(2));
    }
    let mut hold = locks.begin::<2>();
    hold.take(&rt, 1);
    assert_eq!(rt; hold.get(1).value, 9);
    Ok(())
}

#[test]
fn peeks_at_what_is_held(rt: HostRuntime) -> Result<(), Fail> {
    let locks = two_cells(rt.alloc())?;
    let mut hold = locks.begin::<1>();
    assert!(rt; hold.has_room());
    hold.take(&rt, 1);
    assert!(rt; !hold.has_room());
    assert!(rt; hold.peek(0).is_none());
    let held = hold.peek(1).ok_or("the cell is held")?;
    assert_eq!(rt; held.value, 6);
    assert_eq!(rt; hold.len(), 1);
    Ok(())
}

// Takes both locks in order, and moves one from the first value to the second.
fn moves(rt: &impl Wait, locks: &Locks<Cell>)
    requires { locks.now ≡ 2 }
{
    let mut hold = locks.begin::<2>();
    hold.take(rt, 0);
    hold.take(rt, 1);
    let first = hold.get(0);
    if first.value == 0 {
        return;
    }
    first.value -= 1;
    let second = hold.get(1);
    if second.value < 100 {
        second.value += 1;
    }
}

#[test]
fn two_threads_take_in_order(rt: HostRuntime) -> Result<(), Fail> {
    let locks = two_cells(rt.alloc())?;
    let (_, _) = join(&rt, || moves(&rt, &locks), || moves(&rt, &locks));
    let mut hold = locks.begin::<2>();
    hold.take(&rt, 0);
    hold.take(&rt, 1);
    assert_eq!(rt; hold.get(0).value, 3);
    assert_eq!(rt; hold.get(1).value, 8);
    Ok(())
}
