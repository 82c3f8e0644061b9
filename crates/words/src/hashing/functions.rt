// The functions of SHA-256 on words: FIPS 180-4, section 4.1.2.
ghost use Rattle.std.specs.Prelude.{◌≡◌, ◌<◌};
ghost use Rattle.words.specs.Functions.{Ch, Maj, Σ, σ};

// Each bit of x chooses the bit of y or of z; one operation fewer than in the standard's form, to which it is proved equal.
#[tactic(auto, using(crate::proofs::Bits::choice))]
pub(super) fn ch(x: u32, y: u32, z: u32) -> u32
    ensures { result ≡ Ch x y z }
{
    z ^ (x & (y ^ z))
}

// Each bit is the majority of the three; one round's `y ^ z` is the `x ^ y` of the round before, so the compiler can share it.
#[tactic(auto, using(crate::proofs::Bits::majority))]
pub(super) fn maj(x: u32, y: u32, z: u32) -> u32
    ensures { result ≡ Maj x y z }
{
    y ^ ((x ^ y) & (y ^ z))
}

// The rotations by A, B and C, combined by exclusive or: Σ0 and Σ1.
pub(super) fn big_sigma<const A: u32, const B: u32, const C: u32>(x: u32) -> u32
    requires { (0 < A) × (A < 32) × (0 < B) × (B < 32) × (0 < C) × (C < 32) }
    ensures { result ≡ Σ A B C x }
{
    x.rotate_right(A) ^ x.rotate_right(B) ^ x.rotate_right(C)
}

// The rotations by A and B, and the shift by C: σ0 and σ1.
pub(super) fn small_sigma<const A: u32, const B: u32, const C: u32>(x: u32) -> u32
    requires { (0 < A) × (A < 32) × (0 < B) × (B < 32) × (C < 32) }
    ensures { result ≡ σ A B C x }
{
    x.rotate_right(A) ^ x.rotate_right(B) ^ (x >> C)
}
