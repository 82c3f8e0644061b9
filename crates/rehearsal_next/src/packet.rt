// A packet that a cabin of a rehearsal has announced.
ghost use Rattle.std.specs.Prelude.{◌≤◌};

use packets::LONGEST_PACKET;

mod methods;

// The packet is the first `size` bytes. They lie in an array, since a step never fails for want of memory, as a Vec would.
#[derive(Clone, Copy)]
pub(crate) struct Packet {
    bytes: [u8; LONGEST_PACKET],
    size: usize,
    ghost whole: { size ≤ 1440 },
}
