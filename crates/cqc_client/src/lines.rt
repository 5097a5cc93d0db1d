// The lines that are printed for replies.
ghost use Rattle.std.specs.Prelude.{◌≡◌, ◌+◌, ◌^◌, ◌<◌, ◌≤◌, ◌∷◌, [], ◌++◌, length};
ghost use Rattle.std.specs.Fmt.{decimal};
ghost use Rattle.cqc_client.specs.Replies.{line_of, is_last_reply};

use arrayvec::ArrayString;
use cqc_wire::{Reply, kind_of};
use itoa::Buffer;

/// A line of text. The longest is that of a pair, with 21 bytes.
pub(crate) type Line = ArrayString<32>;

// Adds a word, and a number behind it.
fn push(line: &mut Line, word: &str, number: u32)
    requires { length line.old.bytes + length word.now + 10 ≤ 31 }
    ensures bytes { line.new.bytes ≡ line.old.bytes ++ word.now ++ decimal number }
    ensures short { length line.new.bytes ≤ length line.old.bytes + length word.now + 10 }
    ensures fits { number < 2 ^ 32 }
{
    let mut digits = Buffer::new();
    line.push_str(word);
    line.push_str(digits.format(number));
}

// The words of the line of a reply.
fn words_of(reply: &Reply) -> Line
    ensures line { result.bytes ++ 10 ∷ [] ≡ line_of reply.now }
    ensures short { length result.bytes ≤ 31 }
{
    let mut line = Line::new();
    match reply {
        Reply::Hello => line.push_str("hello"),
        Reply::Done => line.push_str("done"),
        Reply::New(id) => push(&mut line, "new ", u32::from(*id)),
        Reply::Received(id) => push(&mut line, "recv ", u32::from(*id)),
        Reply::Outcome(bit) => push(&mut line, "out ", u32::from(*bit)),
        Reply::Pair(id, info) => {
            push(&mut line, "epr ", u32::from(*id));
            push(&mut line, " ", info.pair);
        }
        Reply::Error(_) => push(&mut line, "error ", u32::from(kind_of(reply))),
    }
    line
}

/// The line of a reply, with LF.
pub(crate) fn line_of(reply: &Reply) -> Line
    ensures { result.bytes ≡ line_of reply.now }
{
    let mut line = words_of(reply);
    line.push('\n');
    line
}

/// Whether a reply is a message's last.
pub(crate) fn is_last(reply: &Reply) -> bool
    ensures { result ≡ is_last_reply reply.now }
{
    matches!(reply, Reply::Hello | Reply::Done | Reply::Error(_))
}
