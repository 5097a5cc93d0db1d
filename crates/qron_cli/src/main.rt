//! Virtual quantum nodes over CQC.
#![tactic(auto)]

mod announced;
#[cfg(test)]
mod announced_tests;
#[cfg(test)]
mod circuit_tests;
#[cfg(test)]
mod command_tests;
mod complaint;
mod detail;
mod drill_command;
#[cfg(test)]
mod drill_tests;
mod endings;
mod errors;
mod files;
mod house;
#[cfg(test)]
mod loopback_tests;
#[cfg(test)]
mod mem_house;
mod pipe_command;
mod posts;
mod printing;
mod program;
mod real;
#[cfg(test)]
mod real_tests;
mod replay_command;
mod seats;
mod serve_command;
#[cfg(test)]
mod serve_tests;
#[cfg(test)]
mod settings_tests;
mod status;
mod talk_command;
#[cfg(test)]
mod talk_tests;
#[cfg(test)]
mod tests;
#[cfg(test)]
mod texts;
mod voice;

use crate::complaint::Complaint;
use crate::errors::Errors;
use crate::real::RealHouse;
use crate::status::Status;
use crate::voice::Terminal;
use qron_link::StdPipe;
use std::env;
use std::io::{IsTerminal, Stderr};
use std::process::ExitCode;

fn main(rt: HostRuntime) -> ExitCode {
    let status = match open(&rt) {
        Ok(Outside { words, mut house }) => {
            let status = program::run(&rt, rt.alloc(), &words, &mut house);
            house.finish(status)
        }
        Err(complaint) => {
            standard_error(&rt).complain(&complaint);
            Status::of(&Err(complaint))
        }
    };
    ExitCode::from(status.code())
}

// The words after the program's name, and the real outside.
#[derive(Drop)]
struct Outside<'a> {
    words: Vec<String>,
    house: RealHouse<'a>,
}

fn open(rt: &HostRuntime) -> Result<Outside<'_>, Complaint> {
    let mut words = Vec::new(rt.alloc());
    for word in env::args(rt)?.skip(1) {
        if words.push(word).is_err() {
            return Err(Complaint::Memory);
        }
    }
    let pipe = StdPipe::new(rt.alloc(), rt.stdin(), rt.stdout())?;
    let voice = Terminal::of(rt.stderr());
    let house = RealHouse::new(rt.alloc(), rt, pipe, standard_error(rt), voice);
    Ok(Outside { words, house })
}

fn standard_error(rt: &HostRuntime) -> Errors<Stderr> {
    let out = rt.stderr();
    Errors {
        is_terminal: out.is_terminal(),
        out,
    }
}
