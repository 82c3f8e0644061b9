// The bits of a number.
ghost use Rattle.std.specs.Prelude.{◌≡◌, ◌<◌};
ghost use Rattle.coins.specs.Bits.{bit_of};

// The bit at a place, from the lowest.
pub(crate) fn bit(number: u16, place: usize) -> u8
    requires { place < 16 }
    ensures { result ≡ bit_of number place }
{
    // It is 0 or 1, so `as` loses nothing; `try_from` would answer an error that cannot come.
    ((number >> place) & 1) as u8
}
