// The bytes of replies.
ghost use Rattle.std.specs.Prelude.{◌≡◌, ◌+◌, ◌≤◌, Some, length, take, drop, MatchOption};
ghost use Rattle.cqc_model.specs.Wire.{spell, spell_pair, reply_body, reply_kind, reply_limit, reply_size, pair_of, reply_of, HasReply};
ghost use Rattle.cqc_model.specs.Ranges.{FitsReply};
ghost use Rattle.cqc_wire.specs.Room.{WasPut};

use crate::bytes::{long_number_at, number_at, put};
use crate::header::{VERSION, header_bytes};
use crate::kind;
use cqc_model::{Fault, Header, PairInfo, Reply};

// The most bytes behind the header of a reply.
const BODY_SIZE: usize = 42;

// The bytes of a pair.
fn pair_bytes(p: &PairInfo) -> [u8; 40]
    ensures { result ≡ spell_pair p.now }
{
    let a = p.node_a.to_be_bytes();
    let b = p.port_a.to_be_bytes();
    let c = p.app_a.to_be_bytes();
    let d = p.node_b.to_be_bytes();
    let e = p.port_b.to_be_bytes();
    let f = p.app_b.to_be_bytes();
    let g = p.pair.to_be_bytes();
    [
        a[0], a[1], a[2], a[3], b[0], b[1], c[0], c[1], d[0], d[1], d[2], d[3], e[0], e[1], f[0],
        f[1], g[0], g[1], g[2], g[3], 0, 0, 0, 0, 0, 0, 0, 0, 0, 0, 0, 0, 0, 0, 0, 0, 0, 0, 0, 0,
    ]
}

/// The type of a reply.
pub fn kind_of(reply: &Reply) -> u8
    ensures { result ≡ reply_kind reply.now }
{
    match reply {
        Reply::Hello => kind::HELLO,
        Reply::Done => kind::DONE,
        Reply::New(_) => kind::NEW_OK,
        Reply::Received(_) => kind::RECV,
        Reply::Outcome(_) => kind::MEASOUT,
        Reply::Pair(_, _) => kind::EPR_OK,
        Reply::Error(Fault::General) => kind::ERR_GENERAL,
        Reply::Error(Fault::NoQubit) => kind::ERR_NOQUBIT,
        Reply::Error(Fault::Unsupported) => kind::ERR_UNSUPP,
        Reply::Error(Fault::Timeout) => kind::ERR_TIMEOUT,
        Reply::Error(Fault::Unknown) => kind::ERR_UNKNOWN,
    }
}

// Puts the body of a reply at a place, and gives the place behind it.
fn put_body(out: &mut [u8], at: usize, reply: &Reply) -> usize
    requires { at + 42 ≤ length out.old }
    ensures { WasPut out.old out.new at (reply_body reply.now) result }
{
    match reply {
        Reply::New(id) | Reply::Received(id) => put(out, at, &id.to_be_bytes()),
        Reply::Outcome(bit) => put(out, at, &[u8::from(*bit)]),
        Reply::Pair(id, info) => {
            let at = put(out, at, &id.to_be_bytes());
            put(out, at, &pair_bytes(info))
        }
        Reply::Hello | Reply::Done | Reply::Error(_) => at,
    }
}

// The length of a reply's body.
fn size_of_body(reply: &Reply) -> u32
    ensures { result ≡ length (reply_body reply.now) }
{
    match reply {
        Reply::New(_) | Reply::Received(_) => 2,
        Reply::Outcome(_) => 1,
        Reply::Pair(_, _) => 42,
        Reply::Hello | Reply::Done | Reply::Error(_) => 0,
    }
}

/// Writes the bytes of a reply to the front of `out`, and gives their number. The rest of `out` stays.
pub fn write_reply(out: &mut [u8], app: u16, reply: &Reply) -> usize
    requires { reply_limit ≤ length out.old }
    ensures size { result ≡ length (spell app reply.now) }
    ensures bytes { take result out.new ≡ spell app reply.now }
    ensures behind { drop result out.new ≡ drop result out.old }
{
    let at = put(
        out,
        0,
        &header_bytes(kind_of(reply), app, size_of_body(reply)),
    );
    put_body(out, at, reply)
}

/// The length of the body that a reply of a type has; None for the type of no reply.
pub fn size_of_kind(kind: u8) -> Option<usize>
    ensures { result ≡ reply_size kind }
{
    match kind {
        kind::HELLO | kind::DONE => Some(0),
        kind::ERR_GENERAL | kind::ERR_NOQUBIT | kind::ERR_UNSUPP => Some(0),
        kind::ERR_TIMEOUT | kind::ERR_UNKNOWN => Some(0),
        kind::MEASOUT => Some(1),
        kind::RECV | kind::NEW_OK => Some(2),
        kind::EPR_OK => Some(BODY_SIZE),
        _ => None,
    }
}

// The pair that the bytes behind a qubit's id tell.
fn pair_in(body: &[u8]) -> PairInfo
    requires { length body.now ≡ 42 }
    ensures { result ≡ pair_of body.now }
{
    PairInfo {
        node_a: long_number_at(body, 2),
        port_a: number_at(body, 6),
        app_a: number_at(body, 8),
        node_b: long_number_at(body, 10),
        port_b: number_at(body, 14),
        app_b: number_at(body, 16),
        pair: long_number_at(body, 18),
    }
}

// The reply of a type, as far as its body tells it.
fn reply_in(kind: u8, body: &[u8]) -> Reply
    requires { reply_size kind ≡ Some (length body.now) }
    ensures { result ≡ reply_of kind body.now }
{
    match kind {
        kind::HELLO => Reply::Hello,
        kind::DONE => Reply::Done,
        kind::NEW_OK => Reply::New(number_at(body, 0)),
        kind::RECV => Reply::Received(number_at(body, 0)),
        kind::MEASOUT => Reply::Outcome(body[0] == 1),
        kind::EPR_OK => Reply::Pair(number_at(body, 0), pair_in(body)),
        kind::ERR_GENERAL => Reply::Error(Fault::General),
        kind::ERR_NOQUBIT => Reply::Error(Fault::NoQubit),
        kind::ERR_UNSUPP => Reply::Error(Fault::Unsupported),
        kind::ERR_TIMEOUT => Reply::Error(Fault::Timeout),
        _ => Reply::Error(Fault::Unknown),
    }
}

/// The reply that a header and the bytes behind it are; None exactly where they are no reply's.
pub fn read_reply(head: &Header, body: &[u8]) -> Option<Reply>
    ensures { MatchOption result ((r : Reply) → FitsReply r → ¬ HasReply head.now body.now r)
        (λ r. FitsReply r × HasReply head.now body.now r) }
{
    let whole = head.version == VERSION && head.length as usize == body.len();
    if !whole || size_of_kind(head.kind) != Some(body.len()) {
        return None;
    }
    let reply = reply_in(head.kind, body);
    let mut again = [0; BODY_SIZE];
    let size = put_body(&mut again, 0, &reply);
    if &again[..size] == body {
        Some(reply)
    } else {
        None
    }
}
