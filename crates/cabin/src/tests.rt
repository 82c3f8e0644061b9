// A cabin's calls on examples: what they give, the order of their refusals, and what a refused call leaves.
use super::*;
use coins::ByteCoin;
use moves::{Fault, Layer};
use packets::{Fields, RECORD_SIZE, Reading};
use settings::{Refusal, Settings, Status};
use std::alloc::{AllocError, Global};
use std::process::Abort;
use std::test::Fail;
use words::{PlainList, PlainSealer, Sealer};

const BRANCH: u16 = 0x0107;

// A table of so many places, each filled.
fn filled(heap: Global, places: usize) -> Result<Vec<Place>, AllocError> {
    let place = Place::Filled {
        status: Status::Decided,
        word: [7; 32],
    };
    vec![in heap; place; places]
}

// The word of a cabin for a phase and a value: these three, then zeros.
fn word(cabin: u8, phase: u8, value: u8) -> [u8; 32] {
    let mut word = [0; 32];
    word[0] = cabin;
    word[1] = phase;
    word[2] = value;
    word
}

// The words of four cabins for three phases.
fn words(heap: Global) -> Result<Vec<u8>, AllocError> {
    let mut entries = Vec::new(heap);
    for entry in 0..36u8 {
        entries.extend_from_slice(&word(entry % 12 / 3, entry / 12 + 1, entry % 3))?;
    }
    Ok(entries)
}

// A packet of so many records: cabins 0, 1 and 2 say 1 in phase 1, then in phase 2, then in phase 3.
fn said(heap: Global, count: u8) -> Result<Vec<u8>, Fail> {
    let mut packet = vec![in heap; 0; RECORD_SIZE * usize::from(count)]?;
    for place in 0..count {
        let cabin = place % 3;
        let phase = place / 3 + 1;
        let fields = Fields {
            cabin,
            value: 1,
            status: Status::Undecided,
            branch: BRANCH,
            phase: u16::from(phase),
        };
        packets::write(
            packet.as_mut_slice(),
            usize::from(place),
            fields,
            &word(cabin, phase, 1),
        )?;
    }
    Ok(packet)
}

// Hears a packet with a coin of eight zeros.
fn hear(
    cabin: &mut Cabin,
    table: &mut [Place],
    entries: &[u8],
    packet: &[u8],
) -> Result<Heard, Refusal> {
    let settings = cabin.state().settings;
    let list = PlainList::new(&settings, entries)?;
    let mut coin = ByteCoin::new(&[0])?;
    cabin.hear(table, packet, &list, &mut coin)
}

// Announces into so many bytes, which a refusal leaves.
fn announce_fault<S: Sealer>(
    rt: &impl Abort,
    heap: Global,
    cabin: &mut Cabin,
    table: &[Place],
    sealer: &S,
    size: usize,
) -> Result<Option<Refusal>, Fail> {
    let mut buffer = vec![in heap; 255u8; size]?;
    let answer = cabin.announce(table, sealer, buffer.as_mut_slice());
    for byte in buffer.iter() {
        assert_eq!(rt; *byte, 255);
    }
    Ok(answer.err())
}

#[test]
fn table_sizes(rt: HostRuntime) -> Result<(), Fail> {
    for (cabins, phases, size) in [(4, 3, 36), (4, 12, 144), (16, 24, 1152)] {
        assert_eq!(rt; places(&Settings::new(cabins, 0, phases)?), size);
    }
    Ok(())
}

#[test]
fn open_starts_in_phase_1(rt: HostRuntime) -> Result<(), Fail> {
    let settings = Settings::new(4, 1, 12)?;
    let mut table = filled(rt.alloc(), 144)?;
    let cabin = Cabin::open(settings, 3, 65535, 1, table.as_mut_slice())?;
    let state = cabin.state();
    assert_eq!(rt; state.settings, settings);
    assert_eq!(rt; state.number, 3);
    assert_eq!(rt; state.branch, 65535);
    assert_eq!(rt; state.phase, 1);
    assert_eq!(rt; state.value, 1);
    assert_eq!(rt; state.status, Status::Undecided);
    assert_eq!(rt; state.decision, None);
    assert!(rt; !state.announced);
    for place in table.iter() {
        assert_eq!(rt; *place, Place::Empty);
    }
    Ok(())
}

#[test]
fn open_is_refused_in_order(rt: HostRuntime) -> Result<(), Fail> {
    let settings = Settings::new(4, 1, 12)?;
    for (number, choice, size, refusal) in [
        (4, 2, 143, Refusal::CabinNumber),
        (255, 0, 144, Refusal::CabinNumber),
        (3, 2, 143, Refusal::Choice),
        (0, 255, 144, Refusal::Choice),
        (3, 1, 143, Refusal::TableSize),
        (0, 0, 145, Refusal::TableSize),
        (0, 0, 0, Refusal::TableSize),
    ] {
        let mut table = filled(rt.alloc(), size)?;
        let answer = Cabin::open(settings, number, 0, choice, table.as_mut_slice());
        assert_eq!(rt; answer.err(), Some(refusal));
        for place in table.iter() {
            assert_ne!(rt; *place, Place::Empty);
        }
    }
    Ok(())
}

// Of a cabin that is past its last phase. The empty sealer is of cabin 0 and has last phase 0.
#[test]
fn announce_is_refused_in_order(rt: HostRuntime) -> Result<(), Fail> {
    let heap = rt.alloc();
    let settings = Settings::new(4, 1, 3)?;
    let entries = words(heap)?;
    let packet = said(heap, 9)?;
    let mut sealer = PlainSealer::empty();
    sealer.make(&settings, 1, entries.as_slice())?;
    for (number, sealed, places, size, refusal) in [
        (1, false, 35, 1439, Refusal::TableSize),
        (1, false, 36, 1439, Refusal::CabinNumber),
        (0, false, 36, 1439, Refusal::WordsSize),
        (1, true, 36, 1439, Refusal::BufferSize),
        (1, true, 36, 1440, Refusal::Finished),
    ] {
        let mut table = filled(heap, 36)?;
        let mut cabin = Cabin::open(settings, number, BRANCH, 0, table.as_mut_slice())?;
        hear(
            &mut cabin,
            table.as_mut_slice(),
            entries.as_slice(),
            packet.as_slice(),
        )?;
        let before = cabin.state();
        let other = filled(heap, places)?;
        let chosen = if sealed { sealer } else { PlainSealer::empty() };
        let fault = announce_fault(&rt, heap, &mut cabin, other.as_slice(), &chosen, size)?;
        assert_eq!(rt; fault, Some(refusal));
        assert_eq!(rt; cabin.state(), before);
    }
    Ok(())
}

// From its second announcement in phase 2 on, a cabin sends the three records that support it.
#[test]
fn announced_records_read_back(rt: HostRuntime) -> Result<(), Fail> {
    let settings = Settings::new(4, 1, 3)?;
    let entries = words(rt.alloc())?;
    let mut sealer = PlainSealer::empty();
    sealer.make(&settings, 3, entries.as_slice())?;
    let mut table = filled(rt.alloc(), 36)?;
    let mut cabin = Cabin::open(settings, 3, BRANCH, 0, table.as_mut_slice())?;
    let packet = said(rt.alloc(), 3)?;
    hear(
        &mut cabin,
        table.as_mut_slice(),
        entries.as_slice(),
        packet.as_slice(),
    )?;
    let mut buffer = [255; 1440];
    assert_eq!(rt; cabin.announce(table.as_slice(), &sealer, &mut buffer)?, 40);
    assert!(rt; cabin.state().announced);
    assert_eq!(rt;
        cabin.announce(table.as_slice(), &sealer, &mut buffer)?,
        160
    );
    assert_eq!(rt; &buffer[0..120], packet.as_slice());
    assert_eq!(rt; buffer[160], 255);
    let own = Fields {
        cabin: 3,
        value: 1,
        status: Status::Undecided,
        branch: BRANCH,
        phase: 2,
    };
    let announced = Reading::Announcement {
        fields: own,
        word: &word(3, 2, 1),
    };
    assert_eq!(rt;
        packets::read(&buffer[0..160], 3, &settings, BRANCH)?,
        announced
    );
    Ok(())
}

#[test]
fn hear_is_refused_in_order(rt: HostRuntime) -> Result<(), Fail> {
    let settings = Settings::new(4, 1, 3)?;
    let entries = words(rt.alloc())?;
    let list = PlainList::new(&settings, entries.as_slice())?;
    let bytes = [0; 1];
    for (places, left, refusal) in [
        (35, 0, Refusal::TableSize),
        (36, 0, Refusal::CoinEmpty),
        (36, 1, Refusal::PacketSize),
    ] {
        let mut table = filled(rt.alloc(), 36)?;
        let mut cabin = Cabin::open(settings, 3, BRANCH, 0, table.as_mut_slice())?;
        let before = cabin.state();
        let mut other = filled(rt.alloc(), places)?;
        assert!(rt; left <= bytes.len());
        let mut coin = ByteCoin::new(&bytes[0..left])?;
        let answer = cabin.hear(other.as_mut_slice(), &[0; 119], &list, &mut coin);
        assert_eq!(rt; answer.err(), Some(refusal));
        assert_eq!(rt; cabin.state(), before);
        for place in other.iter() {
            assert_ne!(rt; *place, Place::Empty);
        }
    }
    Ok(())
}

// Three records of phase 1 move the cabin to phase 2; heard again they are known, and it stays there.
#[test]
fn a_quorum_moves_the_cabin_once(rt: HostRuntime) -> Result<(), Fail> {
    let settings = Settings::new(4, 1, 3)?;
    let entries = words(rt.alloc())?;
    let mut table = filled(rt.alloc(), 36)?;
    let mut cabin = Cabin::open(settings, 3, BRANCH, 0, table.as_mut_slice())?;
    let packet = said(rt.alloc(), 3)?;
    for tallies in [(3, 0, 0), (0, 3, 0)] {
        let heard = hear(
            &mut cabin,
            table.as_mut_slice(),
            entries.as_slice(),
            packet.as_slice(),
        )?;
        assert_eq!(rt; heard.tallies, tallies);
        assert_eq!(rt; heard.fault, None);
        assert_eq!(rt; cabin.state().phase, 2);
        assert_eq!(rt; cabin.state().value, 1);
    }
    Ok(())
}

// The last phase is left with a decision.
#[test]
fn nine_records_decide(rt: HostRuntime) -> Result<(), Fail> {
    let settings = Settings::new(4, 1, 3)?;
    let entries = words(rt.alloc())?;
    let mut table = filled(rt.alloc(), 36)?;
    let mut cabin = Cabin::open(settings, 3, BRANCH, 0, table.as_mut_slice())?;
    let packet = said(rt.alloc(), 9)?;
    let heard = hear(
        &mut cabin,
        table.as_mut_slice(),
        entries.as_slice(),
        packet.as_slice(),
    )?;
    assert_eq!(rt; heard.tallies, (9, 0, 0));
    assert_eq!(rt; cabin.state().phase, 4);
    assert_eq!(rt; cabin.state().status, Status::Decided);
    assert_eq!(rt; cabin.state().decision, Some(1));
    Ok(())
}

// The byte at a place of the packet damages a record; the other two are kept.
#[test]
fn a_fault_leaves_the_other_records(rt: HostRuntime) -> Result<(), Fail> {
    let settings = Settings::new(4, 1, 3)?;
    let entries = words(rt.alloc())?;
    for (at, byte, refusal, place, layer) in [
        (40, 4, Refusal::Field, 1, Layer::Frame),
        (5, 8, Refusal::BranchPoint, 0, Layer::Frame),
        (119, 1, Refusal::Word, 2, Layer::Word),
    ] {
        let mut table = filled(rt.alloc(), 36)?;
        let mut cabin = Cabin::open(settings, 3, BRANCH, 0, table.as_mut_slice())?;
        let mut packet = said(rt.alloc(), 3)?;
        assert!(rt; at < packet.len());
        packet[at] = byte;
        let heard = hear(
            &mut cabin,
            table.as_mut_slice(),
            entries.as_slice(),
            packet.as_slice(),
        )?;
        assert_eq!(rt; heard.tallies, (2, 0, 1));
        let fault = Fault {
            refusal,
            place,
            layer,
        };
        assert_eq!(rt; heard.fault, Some(fault));
        assert_eq!(rt; cabin.state().phase, 1);
    }
    Ok(())
}
