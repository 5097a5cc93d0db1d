// What is printed of a drill.
ghost use Rattle.std.specs.Prelude.{◌≡◌, ◌++◌, IfOk, string_bytes};
ghost use Rattle.session_model.specs.Heard.{line};
ghost use Rattle.cqc_client.specs.Tally.{numbered, lines_of};

use crate::outcomes::Tally;
use std::alloc::{AllocError, Global};

/// What a drill of so many rounds came to.
#[derive(Clone, Copy, PartialEq, Eq, Debug, Drop)]
pub struct Summary {
    pub rounds: u32,
    /// The entries of the journal.
    pub entries: usize,
    pub tally: Tally,
    /// The bytes written to the connection at the first node.
    pub first_bytes: usize,
    /// The bytes written to the connection at the second node.
    pub second_bytes: usize,
}

// Adds a word, and a number behind it.
fn push_numbered(text: &mut String, word: &str, number: usize) -> Result<(), AllocError>
    ensures { IfOk result (λ _. string_bytes text.new ≡ string_bytes text.old ++ numbered word.now number) }
{
    write!(text, "{word} {number}")
}

// Adds the line of a word and a number.
fn push_line(text: &mut String, word: &str, number: usize) -> Result<(), AllocError>
    ensures { IfOk result (λ _. string_bytes text.new ≡ string_bytes text.old ++ line (numbered word.now number)) }
{
    push_numbered(text, word, number)?;
    text.push('\n')
}

impl Summary {
    /// The five lines that are printed.
    pub fn lines(&self, alloc: Global) -> Result<String, AllocError>
        ensures { IfOk result (λ text. string_bytes text ≡ lines_of self.now) }
    {
        let mut text = String::new(alloc);
        push_line(&mut text, "rounds", self.rounds as usize)?;
        push_line(&mut text, "entries", self.entries)?;
        push_line(&mut text, "equal", self.tally.equal)?;
        push_line(&mut text, "ones", self.tally.ones)?;
        push_numbered(&mut text, "bytes", self.first_bytes)?;
        push_line(&mut text, "", self.second_bytes)?;
        Ok(text)
    }
}
