// Reading a schedule, line by line.
ghost use Rattle.std.specs.Prelude.{◌≤◌, length};
ghost use Rattle.schedule.specs.Ranges.{IsInRange, IfRead};
ghost use Rattle.schedule.specs.Schedule.{schedule_of};
ghost use Rattle.schedule.specs.Views.{Gives};

use crate::lines::take_line;
use crate::plans::{Schedule, ScheduleFault, ScheduleRead};
use std::alloc::Global;
use text_lines::{LineFault, Lines};

/// The schedule that a text says for so many nodes, or its first refusal.
pub fn read_schedule(alloc: Global, text: &[u8], nodes: u8) -> ScheduleRead
    requires { length text.now ≤ 16_777_216 }
    ensures meaning { Gives result (schedule_of nodes text.now) }
    ensures ranges { IfRead result (IsInRange nodes) }
{
    let mut schedule = Schedule {
        plans: Vec::new(alloc),
        order: Vec::new(alloc),
    };
    let mut number = 0;
    for line in Lines::of(text) {
        number += 1;
        match take_line(alloc, nodes, &mut schedule, line) {
            Ok(()) => {}
            Err(LineFault::Refused(why)) => {
                return ScheduleRead::Refused(ScheduleFault { line: number, why });
            }
            Err(LineFault::OutOfMemory) => return ScheduleRead::OutOfMemory,
        }
    }
    ScheduleRead::Read(schedule)
}
