// What a terminal is told of a complaint besides its line: what was wrong, and what was expected.
use crate::complaint::Complaint;
use cqc_client::ScriptWhy;
use cqc_server::Why;
use node_table::{Key, SettingsFault};
use std::io::{self, Write};

/// Writes what a complaint's line leaves out, as a line of its own. Want of memory has none.
pub fn write_detail<E: Write>(errors: &mut E, complaint: &Complaint) -> io::Result<()> {
    let text = match complaint {
        Complaint::Settings(fault) => return write_settings_detail(errors, fault),
        Complaint::Memory => return Ok(()),
        Complaint::Words => {
            "the words are: pipe, pipe <settings>, replay <settings> <schedule>, serve <settings>, talk <address> <port> <script>, or drill <rounds>"
        }
        Complaint::Fault => "a file, a place or the pipe could not be used",
        Complaint::Schedule(fault) => schedule_detail(fault.why),
        Complaint::Script(fault) => script_detail(fault.why),
        Complaint::FileTooLong => "a file has at most 16,777,216 bytes",
    };
    writeln!(errors, "{text}")
}

// What is expected where a line of a schedule is refused.
fn schedule_detail(why: Why) -> &'static str {
    match why {
        Why::Word => "its first word is neither `c` nor `s`",
        Why::Count => "it is neither `c <node> <room> <input>` nor `s <connection> <count>`",
        Why::Number => {
            "a node is one of the settings, a room 0 to 1,048,576, a connection one of an earlier line, a count 1 to 1,048,576"
        }
        Why::Hex => "an input is `-`, or hexadecimal digits, two for each byte",
        Why::Many => "a schedule has at most 64 connections, and 1,048,576 turns in all",
    }
}

// What is expected where a line of a script is refused.
fn script_detail(why: ScriptWhy) -> &'static str {
    match why {
        ScriptWhy::Word => {
            "its first word is none of app, hello, go, factory and the commands from new to allocate"
        }
        ScriptWhy::Number => {
            "an app, an id and a count of qubits are 0 to 65,535, a step and repeats 0 to 255, a port 1 to 65,535, an address as 127.0.0.1"
        }
        ScriptWhy::Count => "it has a word too few or too many",
        ScriptWhy::Pending => "the commands before it wait for `go` or `factory`",
        ScriptWhy::Nothing => "no command stands before it that it could send",
        ScriptWhy::Long => "its message would have more than 65,536 bytes behind the header",
    }
}

// Writes what is wrong with settings: the key, its table, and what is expected of it.
fn write_settings_detail<E: Write>(errors: &mut E, fault: &SettingsFault) -> io::Result<()> {
    match *fault {
        SettingsFault::OutOfMemory => Ok(()),
        SettingsFault::NotToml => writeln!(errors, "the text isn't UTF-8, or isn't TOML"),
        SettingsFault::Strange { table, before } => {
            write_table(errors, table)?;
            let place = u64::from(before) + 1;
            writeln!(
                errors,
                "a strange key, number {place} of its keys by their bytes"
            )
        }
        SettingsFault::Missing { key, node } => write_key(errors, key, node, "is missing"),
        SettingsFault::Kind { key, node } => write_key(errors, key, node, "is of another kind"),
        SettingsFault::Range { key, node } => write_key(errors, key, node, "is out of its range"),
        SettingsFault::Spelling { key, node } => write_key(errors, key, node, "is misspelt"),
        SettingsFault::Doubled { first, second } => {
            writeln!(errors, "nodes {first} and {second} are at one place")
        }
    }
}

// Writes which table is meant: the top table, or that of a node.
fn write_table<E: Write>(errors: &mut E, table: u8) -> io::Result<()> {
    if table == 0 {
        return write!(errors, "the top table: ");
    }
    let node = table.saturating_sub(1);
    write!(errors, "the table of node {node}: ")
}

// Writes the table of a key, the key, what is wrong with it, and what is expected.
fn write_key<E: Write>(errors: &mut E, key: Key, node: u8, wrong: &str) -> io::Result<()> {
    let table = match key {
        Key::Address | Key::Port => node.saturating_add(1),
        _ => 0,
    };
    write_table(errors, table)?;
    let name = key.name();
    let expected = expected_of(key);
    writeln!(errors, "{name} {wrong}, {expected}")
}

// What is expected of a key.
fn expected_of(key: Key) -> &'static str {
    match key {
        Key::Seed => "a text of 64 hexadecimal digits is expected",
        Key::Limit => "a whole number from 1 to 12 is expected",
        Key::Room => "a whole number from 1 to 16 is expected",
        Key::Journal => "a whole number from 1 to 1,048,576 is expected",
        Key::Patience => "a whole number from 0 to 1,000,000 is expected",
        Key::WaitMs => "a whole number from 0 to 1,000 is expected",
        Key::Workers => "a whole number from 1 to 8 is expected",
        Key::Connections => "a whole number from 1 to 64 is expected",
        Key::Node => "1 to 8 tables [[node]] are expected",
        Key::Address => "a text as 127.0.0.1 is expected",
        Key::Port => "a whole number from 1 to 65,535 is expected",
    }
}
