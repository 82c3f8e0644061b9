// Supports on examples: a hall of four cabins of which one may be faulty, so the quorum is 3 and the weak quorum 2. Of phase 1
// the places are 0 to 11, three for each cabin; of phase 2 they are 12 to 23, and of phase 3 they are 24 to 35.
use super::*;
use settings::{Settings, Status};
use std::process::Abort;
use std::test::Fail;
use table::{Place, Table};

// The places of a hall with six phases.
const SIZE: usize = 72;

// A table in which these places are filled.
fn table_of(places: &[usize]) -> [Place; SIZE] {
    let mut table = [Place::Empty; SIZE];
    for place in places {
        if *place < SIZE {
            table[*place] = Place::Filled {
                status: Status::Undecided,
                word: [7; 32],
            };
        }
    }
    table
}

// Checks that a support has exactly these places.
fn check_places(rt: &impl Abort, support: Support, places: &[u16]) {
    assert_eq!(rt; support.len(), places.len());
    for (index, place) in places.iter().enumerate() {
        assert_eq!(rt; support.place(index), Some(*place));
    }
    assert_eq!(rt; support.place(places.len()), None);
}

// In phase 1 the cabins said 0, 0, 1, 1: two for value 0, and a third for the phase.
#[test]
fn lock(rt: HostRuntime) -> Result<(), Fail> {
    let settings = Settings::new(4, 1, 6)?;
    let places = table_of(&[0, 3, 7, 10]);
    let table = Table {
        settings,
        places: &places,
    };
    check_places(&rt, choose(table, 2, 0, Status::Undecided), &[0, 3, 7]);
    check_places(&rt, choose(table, 2, 1, Status::Undecided), &[0, 7, 10]);
    Ok(())
}

// In phase 2 the cabins said 0, 0, 1, 1, and then each had no preference: three of these for the value and the phase, and all
// of phase 2 for the status.
#[test]
fn converge_undecided(rt: HostRuntime) -> Result<(), Fail> {
    let settings = Settings::new(4, 1, 6)?;
    let places = table_of(&[12, 15, 19, 22, 26, 29, 32, 35]);
    let table = Table {
        settings,
        places: &places,
    };
    check_places(
        &rt,
        choose(table, 4, 1, Status::Undecided),
        &[12, 15, 19, 22, 26, 29, 32],
    );
    Ok(())
}

// All said 0 in phases 2 and 3. A rule that is missed adds nothing, and without a phase before there is no support.
#[test]
fn converge_decided(rt: HostRuntime) -> Result<(), Fail> {
    let settings = Settings::new(4, 1, 6)?;
    let places = table_of(&[12, 15, 18, 21, 24, 27, 30, 33]);
    let table = Table {
        settings,
        places: &places,
    };
    check_places(
        &rt,
        choose(table, 4, 0, Status::Decided),
        &[12, 15, 18, 24, 27, 30],
    );
    check_places(&rt, choose(table, 4, 1, Status::Decided), &[24, 27, 30]);
    check_places(&rt, choose(table, 1, 0, Status::Undecided), &[]);
    let table = Table {
        settings,
        places: &places,
    };
    check_places(&rt, choose(table, 65535, 0, Status::Undecided), &[]);
    Ok(())
}
