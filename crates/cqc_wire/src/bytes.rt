// Numbers in network order, and bytes put into a room.
ghost use Rattle.std.specs.Prelude.{◌≡◌, ◌+◌, ◌≤◌, length};
ghost use Rattle.cqc_model.specs.Wire;
ghost use Rattle.cqc_wire.specs.Room.{WasPut};

/// The number that two bytes from a place on are.
pub(crate) fn number_at(bytes: &[u8], place: usize) -> u16
    requires { place + 2 ≤ length bytes.now }
    ensures { result ≡ Wire.number_at place bytes.now }
{
    u16::from_be_bytes([bytes[place], bytes[place + 1]])
}

/// The number that four bytes from a place on are.
pub(crate) fn long_number_at(bytes: &[u8], place: usize) -> u32
    requires { place + 4 ≤ length bytes.now }
    ensures { result ≡ Wire.long_number_at place bytes.now }
{
    u32::from_be_bytes([
        bytes[place],
        bytes[place + 1],
        bytes[place + 2],
        bytes[place + 3],
    ])
}

/// Puts bytes at a place, and gives the place behind them.
pub(crate) fn put(out: &mut [u8], at: usize, bytes: &[u8]) -> usize
    requires { at + length bytes.now ≤ length out.old }
    ensures { WasPut out.old out.new at bytes.now result }
{
    out[at..at + bytes.len()].copy_from_slice(bytes);
    at + bytes.len()
}
