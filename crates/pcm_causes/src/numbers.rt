//! Numbers of a RIFF file, whose lowest byte comes first.

ghost use Rattle.std.specs.Prelude.{◌+◌, ◌<◌, ◌≤◌, length};

// The number that four bytes spell.
pub(crate) fn four_at(bytes: &[u8], place: usize) -> u32
    requires { place + 4 ≤ length bytes.now }
{
    two_at(bytes, place) + 65536 * two_at(bytes, place + 2)
}

// The number that two bytes spell.
pub(crate) fn two_at(bytes: &[u8], place: usize) -> u32
    requires { place + 2 ≤ length bytes.now }
    ensures { result < 65536 }
{
    u32::from(bytes[place]) + 256 * u32::from(bytes[place + 1])
}
