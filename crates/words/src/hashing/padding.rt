// The blocks that end a padded message: FIPS 180-4, section 5.1.1.
ghost use Rattle.std.specs.Prelude.{◌≡◌, ℕ, ◌-◌, ◌*◌, ◌/◌, ◌%◌, ◌^◌, ◌<◌, List, ◌∷◌, ◌++◌, length, take, drop, replicate, slice_set};
ghost use Rattle.words.specs.Computation.{hash};
ghost use Rattle.words.specs.Padding.{bytes, pad};

use super::compression::compress;

// The hash value after the blocks of the padded message that follow the message's whole blocks, from the hash value before them.
pub(super) fn hash_rest(start: [u32; 8], message: &[u8]) -> [u32; 8]
    ensures { (last : List ℕ) → last ≡ drop (64 * (length message.now / 64)) (pad message.now) → result ≡ hash start last (length last / 64) }
{
    let (_, rest) = message.as_chunks::<64>();
    let mut value = start;
    let mut block = marked(rest);
    if rest.len() > 55 {
        // by a name of its own: an array is not assigned from a call that takes it
        let next = compress(value, &block);
        value = next;
        block = [0; 64];
    }
    compress(value, &with_length(block, bit_length(message.len())))
}

// A block that begins with the rest of the message, and the byte 80h: the bit 1 that follows the message. Zeros follow.
fn marked(rest: &[u8]) -> [u8; 64]
    requires { length rest.now < 64 }
    ensures { result ≡ rest.now ++ 0x80 ∷ replicate (63 - length rest.now) 0 }
{
    let mut block = [0; 64];
    block[..rest.len()].copy_from_slice(rest);
    mark(&mut block, rest.len());
    block
}

// Puts the byte 80h at a place of a block.
fn mark(block: &mut [u8; 64], at: usize)
    requires { at < 64 }
    ensures { block.new ≡ slice_set block.old at 0x80 }
{
    block[at] = 0x80;
}

// The block, with the length of the message in its last eight bytes.
fn with_length(mut block: [u8; 64], bits: u64) -> [u8; 64]
    ensures { result ≡ take 56 block ++ bytes 8 bits }
{
    block[56..].copy_from_slice(&bits.to_be_bytes());
    block
}

// The length in bits of a message of n bytes, modulo 2 ^ 64. A `usize` has 64 bits, so `as` loses nothing.
fn bit_length(n: usize) -> u64
    ensures { result ≡ n * 8 % 2 ^ 64 }
{
    (n as u64).wrapping_mul(8)
}
