// Places, counts and rules on examples: a hall of four cabins of which one may be faulty, so the quorum is 3 and the weak
// quorum 2.
use super::*;
use settings::{Settings, Slot, Status};
use std::test::Fail;

// The places of a hall with six phases.
const SIZE: usize = 72;

// Fills the place of a slot.
fn put(settings: &Settings, places: &mut [Place; SIZE], slot: Slot) {
    if let Some(place) = place_of(settings, slot) {
        if let Some(held) = places.get_mut(place) {
            *held = Place::Filled {
                status: Status::Undecided,
                word: [7; 32],
            };
        }
    }
}

// The places of a table with these records, each a phase, a cabin and a value.
fn places_with(settings: &Settings, records: &[(u16, u8, u8)]) -> [Place; SIZE] {
    let mut places = [Place::Empty; SIZE];
    for &(phase, cabin, value) in records {
        put(settings, &mut places, slot(phase, cabin, value));
    }
    places
}

fn slot(phase: u16, cabin: u8, value: u8) -> Slot {
    Slot {
        cabin,
        phase,
        value,
    }
}

fn table_of(settings: Settings, places: &[Place]) -> Table<'_> {
    Table { settings, places }
}

#[test]
fn table_sizes(rt: HostRuntime) -> Result<(), Fail> {
    for (cabins, phases, size) in [(4, 3, 36), (4, 12, 144), (16, 24, 1152)] {
        assert_eq!(rt; places(&Settings::new(cabins, 0, phases)?), size);
    }
    Ok(())
}

#[test]
fn places_by_phase_cabin_and_value(rt: HostRuntime) -> Result<(), Fail> {
    let settings = Settings::new(4, 1, 6)?;
    for (phase, cabin, value, place) in [
        (1, 0, 0, Some(0)),
        (1, 0, 2, Some(2)),
        (1, 3, 2, Some(11)),
        (2, 0, 0, Some(12)),
        (6, 3, 2, Some(71)),
        (0, 0, 0, None),
        (7, 0, 0, None),
        (1, 4, 0, None),
        (1, 0, 3, None),
    ] {
        assert_eq!(rt; place_of(&settings, slot(phase, cabin, value)), place);
    }
    Ok(())
}

#[test]
fn cabins_are_counted_once(rt: HostRuntime) -> Result<(), Fail> {
    let settings = Settings::new(4, 1, 6)?;
    let places = places_with(
        &settings,
        &[(1, 0, 0), (1, 1, 0), (1, 1, 1), (1, 3, 2), (2, 2, 1)],
    );
    let table = table_of(settings, &places);
    assert!(rt; table.has(slot(1, 3, 2)));
    assert!(rt; !table.has(slot(1, 3, 1)));
    for (phase, value, cabins) in [
        (1, 0, 2),
        (1, 1, 1),
        (1, 2, 1),
        (2, 1, 1),
        (2, 0, 0),
        (0, 0, 0),
    ] {
        assert_eq!(rt; table.count(phase, value), cabins);
    }
    for (phase, cabins) in [(0, 0), (1, 3), (2, 1), (3, 0), (65535, 0)] {
        assert_eq!(rt; table.turnout(phase), cabins);
    }
    Ok(())
}

#[test]
fn rules_of_the_first_cycle(rt: HostRuntime) -> Result<(), Fail> {
    let settings = Settings::new(4, 1, 6)?;
    let mut places = places_with(
        &settings,
        &[
            (1, 0, 0),
            (1, 1, 0),
            (1, 2, 1),
            (2, 0, 0),
            (2, 1, 0),
            (2, 2, 0),
            (3, 0, 0),
        ],
    );
    for (phase, holds) in [(1, true), (2, true), (3, true), (4, false)] {
        assert_eq!(rt; table_of(settings, &places).phase_rule(phase), holds);
    }
    for (phase, value, holds) in [
        (1, 1, true),
        (2, 0, true),
        (2, 1, false),
        (3, 0, true),
        (3, 1, false),
        (3, 2, false),
        (4, 0, true),
        (4, 1, false),
    ] {
        assert_eq!(rt; table_of(settings, &places).value_rule(phase, value), holds);
    }
    put(&settings, &mut places, slot(1, 3, 1));
    assert!(rt; table_of(settings, &places).value_rule(3, 2));
    Ok(())
}

#[test]
fn rules_of_status(rt: HostRuntime) -> Result<(), Fail> {
    let settings = Settings::new(4, 1, 6)?;
    let mut places = places_with(
        &settings,
        &[
            (2, 0, 0),
            (2, 1, 0),
            (2, 2, 1),
            (3, 0, 0),
            (3, 1, 0),
            (3, 2, 0),
        ],
    );
    assert!(rt; table_of(settings, &places).status_rule(3, 0, Status::Undecided));
    assert!(rt; !table_of(settings, &places).status_rule(3, 0, Status::Decided));
    assert!(rt; table_of(settings, &places).status_rule(4, 0, Status::Decided));
    assert!(rt; !table_of(settings, &places).status_rule(4, 1, Status::Decided));
    assert!(rt; !table_of(settings, &places).status_rule(4, 0, Status::Undecided));
    put(&settings, &mut places, slot(2, 3, 1));
    assert!(rt; table_of(settings, &places).status_rule(4, 0, Status::Undecided));
    Ok(())
}
