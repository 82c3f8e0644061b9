// SHA-256: the digest of a message, as FIPS 180-4 has it.
ghost use Rattle.std.specs.Prelude.{◌≡◌};
ghost use Rattle.words.specs.Computation.{compress, digest, sha_256};
ghost use Rattle.std.specs.List.{fold};

mod compression;
mod constants;
mod functions;
mod padding;

use compression::compress;
use constants::initial;
use padding::hash_rest;

// The digest of the message, which is read where it stands: only the last one or two blocks, with the padding, are made here.
pub fn sha256(message: &[u8]) -> [u8; 32]
    ensures { result ≡ sha_256 message.now }
{
    let (blocks, _) = message.as_chunks::<64>();
    let whole = hash_blocks(initial(), blocks);
    digest(hash_rest(whole, message))
}

// The hash value after the blocks, from the hash value before them.
fn hash_blocks(start: [u32; 8], blocks: &[[u8; 64]]) -> [u32; 8]
    ensures { result ≡ fold compress start blocks.now }
{
    blocks.iter().fold(start, compress)
}

// The bytes of the eight words of a hash value.
fn digest(value: [u32; 8]) -> [u8; 32]
    ensures { result ≡ digest value }
{
    let mut bytes = [0; 32];
    // not zipped with the chunks of `bytes`: a proof does not know what is written through them
    for (i, word) in value.iter().enumerate() {
        bytes[4 * i..4 * i + 4].copy_from_slice(&word.to_be_bytes());
    }
    bytes
}
