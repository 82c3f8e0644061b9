// The hash value after one more block: FIPS 180-4, section 6.2.2.
ghost use Rattle.std.specs.Prelude.{◌≡◌, ℕ, ◌+◌, ◌<◌, ◌≤◌, List, take, slice_index};
ghost use Rattle.words.specs.Computation.{added, compress, next_word, round, rounds, schedule};
ghost use Rattle.words.specs.Padding.{word, words};

use super::constants::constant;
use super::functions::{big_sigma, ch, maj, small_sigma};
use std::array;

// The next hash value, from the hash value before and a block.
#[tactic(auto, unfolding(crate::specs::Computation::compress))]
pub(super) fn compress(hash: [u32; 8], block: &[u8; 64]) -> [u32; 8]
    ensures { result ≡ compress hash block.now }
{
    let mut w = [0; 64];
    read_words(block, &mut w);
    extend(&mut w);
    sums(rounds(hash, &w), hash)
}

// The sixteen words of the block, to the front of w.
fn read_words(block: &[u8; 64], w: &mut [u32; 64])
    ensures { take 16 w.new ≡ words block.now }
{
    // not zipped with `w.iter_mut()`: a proof does not know what is written through it
    for (t, bytes) in block.as_chunks::<4>().0.iter().enumerate() {
        w[t] = read_word(bytes);
    }
}

// The word of four bytes of the block.
fn read_word(bytes: &[u8; 4]) -> u32
    ensures { result ≡ word bytes.now 0 }
{
    u32::from_be_bytes(*bytes)
}

// The rest of the message schedule, whose first sixteen words w has.
#[tactic(auto, using(crate::proofs::Schedule::words_none, crate::proofs::Schedule::words_more, crate::proofs::Schedule::words_all))]
fn extend(w: &mut [u32; 64])
    ensures { w.new ≡ schedule (take 16 w.old) 64 }
{
    // an index, since each word is made of earlier ones in the same array
    for t in 16..64 {
        w[t] = next_word(w, t);
    }
}

// Word t of the message schedule, from the words before it.
fn next_word(w: &[u32; 64], t: usize) -> u32
    requires { (16 ≤ t) × (t < 64) }
    ensures { result ≡ next_word w.now t }
{
    small_sigma::<17, 19, 10>(w[t - 2])
        .wrapping_add(w[t - 7])
        .wrapping_add(small_sigma::<7, 18, 3>(w[t - 15]))
        .wrapping_add(w[t - 16])
}

// A round on the working variables, with the constant k and the word w.
#[tactic(auto, unfolding(crate::specs::Computation::round))]
fn round(v: [u32; 8], k: u32, w: u32) -> [u32; 8]
    ensures { result ≡ round v k w }
{
    let [a, b, c, d, e, f, g, h] = v;
    let t1 = h
        .wrapping_add(big_sigma::<6, 11, 25>(e))
        .wrapping_add(ch(e, f, g))
        .wrapping_add(k)
        .wrapping_add(w);
    let t2 = big_sigma::<2, 13, 22>(a).wrapping_add(maj(a, b, c));
    [t1.wrapping_add(t2), a, b, c, d.wrapping_add(t1), e, f, g]
}

// The working variables after the sixty-four rounds, with the words w.
#[tactic(auto, using(crate::proofs::Rounds::rounds_none))]
fn rounds(hash: [u32; 8], w: &[u32; 64]) -> [u32; 8]
    ensures { result ≡ rounds w.now hash 64 }
{
    let mut v = hash;
    for turn in 0..8 {
        // by a name of its own: an array is not assigned from a call that takes it
        let next = eight_rounds(v, w, 8 * turn);
        v = next;
    }
    v
}

// Eight rounds from a round on: the compiler unrolls the loop over eight, which is faster than one loop over all the rounds. A round
// goes by its number, as in the standard, since it takes a constant and a word of that number.
#[tactic(auto, using(crate::proofs::Rounds::rounds_more))]
fn eight_rounds(start: [u32; 8], w: &[u32; 64], from: usize) -> [u32; 8]
    requires { from + 8 ≤ 64 }
    ensures { (hash : List ℕ) → start ≡ rounds w.now hash from → result ≡ rounds w.now hash (from + 8) }
{
    let mut v = start;
    for t in from..from + 8 {
        let next = round(v, constant(t), w[t]);
        v = next;
    }
    v
}

// The working variables added to the hash value.
#[tactic(auto, unfolding(crate::specs::Computation::added))]
fn sums(v: [u32; 8], hash: [u32; 8]) -> [u32; 8]
    ensures { result ≡ added v hash }
{
    array::from_fn(|i| v[i].wrapping_add(hash[i]))
}
