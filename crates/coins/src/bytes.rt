// A coin over bytes that are lent to it.
ghost use Rattle.std.specs.Prelude.{◌*◌, ◌≤◌, length};

mod methods;

// The bits of some bytes, the first byte first and its high bit first. Those that are left are the last ones.
// It cannot be copied, so that no bit is tossed twice.
#[derive(Drop, Debug)]
pub struct ByteCoin<'a> {
    bytes: &'a [u8],
    left: usize,
    ghost within: { left ≤ 8 * length bytes.now },
}
