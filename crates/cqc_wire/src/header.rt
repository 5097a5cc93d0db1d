// The eight bytes in front of each message and reply.
ghost use Rattle.std.specs.Prelude.{◌≡◌};
ghost use Rattle.cqc_model.specs.Wire.{header_of, spell_header};

use cqc_model::Header;

/// The header that eight bytes are.
pub fn read_header(bytes: &[u8; 8]) -> Header
    ensures { result ≡ header_of bytes.now }
{
    Header {
        version: bytes[0],
        kind: bytes[1],
        app: u16::from_be_bytes([bytes[2], bytes[3]]),
        length: u32::from_be_bytes([bytes[4], bytes[5], bytes[6], bytes[7]]),
    }
}

// The version of each message and reply.
pub(crate) const VERSION: u8 = 2;

// The bytes of a header of version 2: the type, the app, and the length of what follows.
pub(crate) fn header_bytes(kind: u8, app: u16, size: u32) -> [u8; 8]
    ensures { result ≡ spell_header kind app size }
{
    let a = app.to_be_bytes();
    let s = size.to_be_bytes();
    [VERSION, kind, a[0], a[1], s[0], s[1], s[2], s[3]]
}
