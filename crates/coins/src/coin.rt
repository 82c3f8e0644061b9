// What every coin promises.
ghost use Rattle.std.specs.Prelude.{◌≡◌, ℕ, ◌≤◌, true, List, [], length};
ghost use Rattle.coins.specs.Bits.{are_bits, bits_after, first_bit};

// A source of bits that may run out.
pub trait Coin {
    // the bits still to come, in their order
    ghost bits: { Self → List ℕ };

    // Takes the next bit. A coin that has run out gives 0 and stays as it is.
    // Each coin tests this itself: a shared `toss` would need a second public method, which gives an `Option` of the bit.
    fn toss(&mut self) -> u8
        ensures value { result ≡ first_bit (bits self.old) }
        ensures bound { result ≤ 1 }
        ensures after { bits self.new ≡ bits_after (bits self.old) }
        ensures spent { bits self.old ≡ [] → self.new ≡ self.old };

    // How many bits are left, each of which is 0 or 1.
    fn left(&self) -> usize
        ensures value { result ≡ length (bits self.now) }
        ensures each { are_bits (bits self.now) ≡ true };
}
