// Reading the files that the words name.
ghost use Rattle.std.specs.Prelude.{◌≡◌, [], ◌∷◌};
ghost use Rattle.node_table.specs.Document.{IsInRange};
ghost use Rattle.qron_cli.specs.House.{Allows, ask_file, WasAsked};
ghost use Rattle.qron_cli.specs.Files.{Holds, SaysSettings, SaysSchedule, Gave, RefusesNothing, RefusesAsSettings, RefusesAsSchedule};
ghost use Rattle.qron_cli.specs.Seats.{CanPlay};
ghost use Rattle.schedule.specs.Views.{plans};

use crate::complaint::Complaint;
use crate::house::{FileRead, House};
use cqc_server::{Schedule, ScheduleRead, read_schedule};
use node_table::{Settings, SettingsFault, read_settings};
use std::alloc::Global;

/// The text of a file.
pub fn text_of<H: House>(house: &mut H, name: &str) -> Result<Vec<u8>, Complaint>
    requires { Allows (ask_file name.now ∷ []) (H.facts house.old) }
    ensures gave { Gave (λ text. Holds (H.facts house.old) name.now text.items) RefusesNothing name.now (H.facts house.old) (H.facts house.new) result }
    ensures asked { WasAsked (H.facts house.old) (H.facts house.new) }
    ensures handed { H.handed house.new ≡ H.handed house.old }
    ensures posted { H.posted house.new ≡ H.posted house.old }
    ensures pipe { H.pipe_of house.new ≡ H.pipe_of house.old }
{
    match house.file(name) {
        FileRead::Bytes(text) => Ok(text),
        FileRead::TooLong => Err(Complaint::FileTooLong),
        FileRead::Failed => Err(Complaint::Fault),
        FileRead::OutOfMemory => Err(Complaint::Memory),
    }
}

/// The settings that a file says.
pub fn settings_of<H: House>(
    alloc: Global,
    house: &mut H,
    name: &str,
) -> Result<Settings, Complaint>
    requires { Allows (ask_file name.now ∷ []) (H.facts house.old) }
    ensures gave { Gave (λ s. SaysSettings (H.facts house.old) name.now s × IsInRange s) (RefusesAsSettings (H.facts house.old) name.now)
        name.now (H.facts house.old) (H.facts house.new) result }
    ensures asked { WasAsked (H.facts house.old) (H.facts house.new) }
    ensures handed { H.handed house.new ≡ H.handed house.old }
    ensures posted { H.posted house.new ≡ H.posted house.old }
    ensures pipe { H.pipe_of house.new ≡ H.pipe_of house.old }
{
    let text = text_of(house, name)?;
    match read_settings(alloc, text.as_slice()) {
        Ok(settings) => Ok(settings),
        Err(SettingsFault::OutOfMemory) => Err(Complaint::Memory),
        Err(why) => Err(Complaint::Settings(why)),
    }
}

/// The schedule that a file says for so many nodes.
pub fn schedule_of<H: House>(
    alloc: Global,
    house: &mut H,
    name: &str,
    nodes: u8,
) -> Result<Schedule, Complaint>
    requires { Allows (ask_file name.now ∷ []) (H.facts house.old) }
    ensures gave { Gave (λ s. SaysSchedule (H.facts house.old) name.now nodes (plans s) × CanPlay nodes s) (RefusesAsSchedule (H.facts house.old) name.now nodes)
        name.now (H.facts house.old) (H.facts house.new) result }
    ensures asked { WasAsked (H.facts house.old) (H.facts house.new) }
    ensures pipe { H.pipe_of house.new ≡ H.pipe_of house.old }
{
    let text = text_of(house, name)?;
    match read_schedule(alloc, text.as_slice(), nodes) {
        ScheduleRead::Read(schedule) => Ok(schedule),
        ScheduleRead::Refused(why) => Err(Complaint::Schedule(why)),
        ScheduleRead::OutOfMemory => Err(Complaint::Memory),
    }
}
