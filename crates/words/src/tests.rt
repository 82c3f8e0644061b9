// Lists and sealers on examples, for four cabins and three phases: 36 entries of 32 bytes.
use super::*;
use settings::{Refusal, Settings, Slot};
use std::alloc::{AllocError, Global};
use std::test::Fail;

// The SHA-256 of 32 zeros, by sha256sum and openssl.
const DIGEST: [u8; 32] = [
    0x66, 0x68, 0x7a, 0xad, 0xf8, 0x62, 0xbd, 0x77, 0x6c, 0x8f, 0xc1, 0x8b, 0x8e, 0x9f, 0x8e, 0x20,
    0x08, 0x97, 0x14, 0x85, 0x6e, 0xe2, 0x33, 0xb3, 0x90, 0x2a, 0x59, 0x1d, 0x0d, 0x5f, 0x29, 0x25,
];

fn slot(cabin: u8, phase: u16, value: u8) -> Slot {
    Slot {
        cabin,
        phase,
        value,
    }
}

// A list in which every byte of the k-th entry is k.
fn numbered(heap: Global) -> Result<Vec<u8>, AllocError> {
    let mut entries = Vec::new(heap);
    for k in 0..36u8 {
        for _ in 0..32 {
            entries.push(k)?;
        }
    }
    Ok(entries)
}

// A list in which every entry is the digest of 32 zeros.
fn digests(heap: Global) -> Result<Vec<u8>, AllocError> {
    let mut entries = Vec::new(heap);
    for _ in 0..36 {
        entries.extend_from_slice(&DIGEST)?;
    }
    Ok(entries)
}

#[test]
fn plain_list(rt: HostRuntime) -> Result<(), Fail> {
    let settings = Settings::new(4, 1, 3)?;
    let entries = numbered(rt.alloc())?;
    let list = PlainList::new(&settings, entries.as_slice())?;
    // cabin 2 in phase 3 with value 1 has entry 2 * 12 + 3 * 2 + 1
    for (cabin, phase, value, byte, passes) in [
        (2, 3, 1, 31, true),
        (0, 1, 0, 0, true),
        (3, 3, 2, 35, true),
        (2, 3, 1, 30, false),
        (4, 3, 1, 31, false),
        (0, 0, 0, 0, false),
        (0, 4, 0, 0, false),
        (2, 3, 3, 33, false),
    ] {
        assert_eq!(rt; list.passes(slot(cabin, phase, value), &[byte; 32]), passes);
    }
    assert!(rt; !list.passes(slot(2, 3, 1), &[31; 31]));
    assert!(rt; !list.passes(slot(2, 3, 1), &[31; 33]));
    let short = PlainList::new(&Settings::new(4, 1, 6)?, entries.as_slice());
    assert_eq!(rt; short.err(), Some(Refusal::WordsSize));
    Ok(())
}

// Whether the word of 32 such bytes passes for cabin 2 in phase 3 with value 1.
fn passes<W: WordCheck>(check: &W, byte: u8) -> bool {
    check.passes(slot(2, 3, 1), &[byte; 32])
}

#[test]
fn both_forms(rt: HostRuntime) -> Result<(), Fail> {
    let settings = Settings::new(4, 1, 3)?;
    let numbers = numbered(rt.alloc())?;
    let plain = PlainList::new(&settings, numbers.as_slice())?;
    assert!(rt; passes(&plain, 31) && !passes(&plain, 0));
    let hashes = digests(rt.alloc())?;
    let hashed = HashedList::new(&settings, hashes.as_slice())?;
    assert!(rt; passes(&hashed, 0) && !passes(&hashed, 31));
    Ok(())
}

#[test]
fn empty_sealer(rt: HostRuntime) {
    let sealer = PlainSealer::empty();
    assert_eq!(rt; sealer.cabin(), 0);
    assert_eq!(rt; sealer.last_phase(), 0);
    assert!(rt; !sealer.passes(slot(0, 1, 0), &[0; 32]));
    assert_eq!(rt; sealer.seal(1, 0), [0; 32]);
}

#[test]
fn plain_sealer(rt: HostRuntime) -> Result<(), Fail> {
    let settings = Settings::new(4, 1, 3)?;
    let entries = numbered(rt.alloc())?;
    let all = entries.as_slice();
    assert!(rt; all.len() == 1152);
    let mut sealer = PlainSealer::empty();
    assert_eq!(rt;
        sealer.make(&settings, 4, all).err(),
        Some(Refusal::CabinNumber)
    );
    assert_eq!(rt;
        sealer.make(&settings, 3, &all[0..1120]).err(),
        Some(Refusal::WordsSize)
    );
    assert_eq!(rt; sealer.last_phase(), 0);
    sealer.make(&settings, 3, all)?;
    assert_eq!(rt; sealer.cabin(), 3);
    assert_eq!(rt; sealer.last_phase(), 3);
    assert_eq!(rt; sealer.seal(2, 2), [23; 32]);
    assert!(rt; sealer.passes(slot(3, 2, 2), &sealer.seal(2, 2)));
    assert_eq!(rt; sealer.seal(4, 0), [0; 32]);
    assert_eq!(rt; sealer.seal(1, 3), [0; 32]);
    Ok(())
}

#[test]
fn hashed_sealer(rt: HostRuntime) -> Result<(), Fail> {
    let settings = Settings::new(4, 1, 3)?;
    let entries = digests(rt.alloc())?;
    let mut sealer = HashedSealer::empty();
    assert_eq!(rt;
        sealer.make(&settings, 4, entries.as_slice(), &[]).err(),
        Some(Refusal::CabinNumber)
    );
    assert_eq!(rt;
        sealer
            .make(&settings, 1, entries.as_slice(), &[0; 287])
            .err(),
        Some(Refusal::WordsSize)
    );
    assert_eq!(rt;
        sealer.make(&settings, 1, &[], &[0; 288]).err(),
        Some(Refusal::WordsSize)
    );
    assert_eq!(rt;
        sealer
            .make(&settings, 1, entries.as_slice(), &[1; 288])
            .err(),
        Some(Refusal::OwnWord)
    );
    assert_eq!(rt; sealer.last_phase(), 0);
    sealer.make(&settings, 1, entries.as_slice(), &[0; 288])?;
    assert_eq!(rt; sealer.cabin(), 1);
    assert!(rt; sealer.passes(slot(1, 3, 2), &sealer.seal(3, 2)));
    assert!(rt; sealer.passes(slot(2, 3, 2), &[0; 32]));
    assert!(rt; !sealer.passes(slot(1, 3, 2), &[1; 32]));
    assert!(rt; !sealer.passes(slot(1, 4, 0), &[0; 32]));
    Ok(())
}
