// Packets and records on examples: sizes, faults in their order, and records that are written and read back.
use super::*;
use settings::{Refusal, Settings, Status};
use std::test::Fail;

const BRANCH: u16 = 0x0107;

// A lawful record: cabin 1, value 0, decided, branch point 0107h, phase 2, and a word of nines.
const LAWFUL: [u8; RECORD_SIZE] = [
    1, 0, 1, 0, 1, 7, 0, 2, 9, 9, 9, 9, 9, 9, 9, 9, 9, 9, 9, 9, 9, 9, 9, 9, 9, 9, 9, 9, 9, 9, 9, 9,
    9, 9, 9, 9, 9, 9, 9, 9,
];

// The fault of a packet's first record in a hall of four cabins and twelve phases.
fn fault(packet: &[u8]) -> Result<Option<Refusal>, Refusal> {
    Ok(read(packet, 0, &Settings::new(4, 1, 12)?, BRANCH).err())
}

// A packet of a right size is read: its first record has phase 0.
#[test]
fn sizes(rt: HostRuntime) -> Result<(), Fail> {
    let bytes = [0; 1480];
    for (size, count) in [(40, 1), (80, 2), (1440, 36)] {
        assert!(rt; size <= bytes.len());
        assert_eq!(rt; records(&bytes[0..size])?, count);
        assert_eq!(rt; fault(&bytes[0..size])?, Some(Refusal::Field));
    }
    for size in [0, 1, 39, 41, 1439, 1441, 1480] {
        assert!(rt; size <= bytes.len());
        assert_eq!(rt; records(&bytes[0..size]).err(), Some(Refusal::PacketSize));
        assert_eq!(rt; fault(&bytes[0..size])?, Some(Refusal::PacketSize));
    }
    Ok(())
}

#[test]
fn damaged_records(rt: HostRuntime) -> Result<(), Fail> {
    assert_eq!(rt; fault(&LAWFUL)?, None);
    for (place, byte, refusal) in [
        (0, 4, Refusal::Field),
        (0, 255, Refusal::Field),
        (6, 1, Refusal::Field),
        (7, 0, Refusal::Field),
        (7, 13, Refusal::Field),
        (1, 2, Refusal::Field),
        (1, 255, Refusal::Field),
        (2, 2, Refusal::Field),
        (2, 255, Refusal::Field),
        (3, 1, Refusal::Field),
        (4, 0, Refusal::BranchPoint),
        (5, 8, Refusal::BranchPoint),
    ] {
        let mut packet = LAWFUL;
        assert!(rt; place < packet.len());
        packet[place] = byte;
        assert_eq!(rt; fault(&packet)?, Some(refusal));
    }
    Ok(())
}

// An unlawful field comes before another branch point.
#[test]
fn faults_in_order(rt: HostRuntime) -> Result<(), Fail> {
    for place in [0, 1, 2, 3, 7] {
        let mut packet = LAWFUL;
        packet[5] = 8;
        assert!(rt; place < packet.len());
        packet[place] = 200;
        assert_eq!(rt; fault(&packet)?, Some(Refusal::Field));
    }
    Ok(())
}

// Value 2 passes only in DECIDE phases, value 3 nowhere.
#[test]
fn values_by_phase(rt: HostRuntime) -> Result<(), Fail> {
    for (phase, value, refusal) in [
        (3, 2, None),
        (12, 2, None),
        (3, 3, Some(Refusal::Field)),
        (2, 2, Some(Refusal::Field)),
        (1, 2, Some(Refusal::Field)),
        (2, 1, None),
    ] {
        let mut packet = LAWFUL;
        packet[7] = phase;
        packet[1] = value;
        assert_eq!(rt; fault(&packet)?, refusal);
    }
    Ok(())
}

// The record of a packet at a place.
fn reading(packet: &[u8], place: usize) -> Result<Reading, Refusal> {
    read(packet, place, &Settings::new(4, 1, 12)?, BRANCH)
}

// Two records are written and read back; the last is the announcement.
#[test]
fn written_records_read_back(rt: HostRuntime) -> Result<(), Fail> {
    let first = Fields {
        cabin: 2,
        value: 1,
        status: Status::Undecided,
        branch: BRANCH,
        phase: 4,
    };
    let second = Fields {
        cabin: 3,
        value: 2,
        status: Status::Decided,
        branch: BRANCH,
        phase: 12,
    };
    let mut packet = [255; 80];
    write(&mut packet, 0, first, &[5; WORD_SIZE])?;
    write(&mut packet, 1, second, &[6; WORD_SIZE])?;
    let support = Reading::Support {
        fields: first,
        word: &[5; WORD_SIZE],
    };
    let announcement = Reading::Announcement {
        fields: second,
        word: &[6; WORD_SIZE],
    };
    assert_eq!(rt; reading(&packet, 0)?, support);
    assert_eq!(rt; reading(&packet, 1)?, announcement);
    assert_eq!(rt; reading(&packet, 2).err(), Some(Refusal::PacketSize));
    Ok(())
}

// A reading tells its fields and its word, and two readings are equal where they show the same.
#[test]
fn parts_of_readings(rt: HostRuntime) -> Result<(), Fail> {
    let mut packet = [0; 80];
    packet[..RECORD_SIZE].copy_from_slice(&LAWFUL);
    packet[RECORD_SIZE..].copy_from_slice(&LAWFUL);
    let fields = Fields {
        cabin: 1,
        value: 0,
        status: Status::Decided,
        branch: BRANCH,
        phase: 2,
    };
    for place in 0..2 {
        assert_eq!(rt; reading(&packet, place)?.fields(), fields);
        assert_eq!(rt; reading(&packet, place)?.word(), &[9; WORD_SIZE][..]);
    }
    assert_ne!(rt; reading(&packet, 0)?, reading(&packet, 1)?);
    let before = reading(&packet, 0)?;
    let mut other = packet;
    other[8] = 8;
    assert_ne!(rt; reading(&other, 0)?, before);
    Ok(())
}

#[test]
fn a_write_changes_one_record(rt: HostRuntime) -> Result<(), Fail> {
    let fields = Fields {
        cabin: 3,
        value: 2,
        status: Status::Decided,
        branch: 0x1234,
        phase: 0x0102,
    };
    let mut buffer = [255; 119];
    assert_eq!(rt;
        write(&mut buffer, 2, fields, &[7; WORD_SIZE]).err(),
        Some(Refusal::BufferSize)
    );
    for byte in &buffer {
        assert_eq!(rt; *byte, 255);
    }
    write(&mut buffer, 1, fields, &[7; WORD_SIZE])?;
    let head = [3, 2, 1, 0, 0x12, 0x34, 1, 2];
    for (place, byte) in buffer.iter().enumerate() {
        let expected = match place {
            40..48 => head[place - 40],
            48..80 => 7,
            _ => 255,
        };
        assert_eq!(rt; *byte, expected);
    }
    Ok(())
}
