// Why a script is refused.
ghost use Rattle.std.specs.Prelude.{◌≡◌};

use text_lines::LineFault;

/// Why a line is refused. Of several causes Word is told first, then Count, Number, Pending, Nothing and Long.
#[derive(Clone, Copy, PartialEq, Eq, Debug, Drop)]
pub enum ScriptWhy {
    /// Its first word is none that a line of a script begins with.
    Word,
    /// An operand is no number in its range, or no address.
    Number,
    /// It has another number of words than its first word asks for.
    Count,
    /// Commands that no `go` or `factory` has sent are pending at `hello`, or at the end of the text.
    Pending,
    /// No command is pending at `go` or `factory`.
    Nothing,
    /// The body would have more than 65,536 bytes.
    Long,
}

/// The first line that is refused, counted from 1, and why. Commands that are pending at the end are told behind the last line.
#[derive(Clone, Copy, PartialEq, Eq, Debug, Drop)]
pub struct ScriptFault {
    pub line: u32,
    pub why: ScriptWhy,
}

impl From<ScriptWhy> for LineFault<ScriptWhy> {
    ghost use Rattle.text_lines.specs.declared.fault.LineFault.TheVariants.{Refused};

    ghost from_gives = { λ why e. e ≡ Refused why };

    fn from(why: ScriptWhy) -> LineFault<ScriptWhy> {
        LineFault::Refused(why)
    }
}
