// The bounds of settings, the quorums and the kinds of a phase on examples.
use super::*;
use std::test::Fail;

// The refusal of settings, or `None` where they are made.
fn refusal(cabins: u8, faults: u8, phases: u16) -> Option<Refusal> {
    Settings::new(cabins, faults, phases).err()
}

#[test]
fn hall_size_is_refused_first(rt: HostRuntime) {
    for (cabins, faults) in [(3, 0), (17, 0), (6, 2), (4, 2), (16, 6), (255, 255)] {
        assert_eq!(rt; refusal(cabins, faults, 12), Some(Refusal::HallSize));
        assert_eq!(rt; refusal(cabins, faults, 4), Some(Refusal::HallSize));
    }
}

#[test]
fn last_phase_is_refused_next(rt: HostRuntime) {
    for phases in [0, 1, 2, 4, 23, 25, 27, 65535] {
        assert_eq!(rt; refusal(4, 1, phases), Some(Refusal::LastPhase));
    }
}

#[test]
fn bounds_are_taken(rt: HostRuntime) -> Result<(), Fail> {
    for (cabins, faults, phases) in [(4, 1, 3), (4, 0, 24), (16, 5, 24), (7, 2, 12)] {
        let settings = Settings::new(cabins, faults, phases)?;
        assert_eq!(rt; settings.cabins(), cabins);
        assert_eq!(rt; settings.faults(), faults);
        assert_eq!(rt; settings.phases(), phases);
    }
    Ok(())
}

#[test]
fn quorums(rt: HostRuntime) -> Result<(), Fail> {
    for (cabins, faults, quorum, weak) in [(4, 1, 3, 2), (7, 2, 5, 3), (16, 5, 11, 6)] {
        let settings = Settings::new(cabins, faults, 12)?;
        assert_eq!(rt; settings.quorum(), quorum);
        assert_eq!(rt; settings.weak_quorum(), weak);
    }
    Ok(())
}

#[test]
fn kinds_repeat_by_three(rt: HostRuntime) {
    for (phase, kind) in [
        (1, PhaseKind::Converge),
        (2, PhaseKind::Lock),
        (3, PhaseKind::Decide),
        (24, PhaseKind::Decide),
        (25, PhaseKind::Converge),
    ] {
        assert_eq!(rt; PhaseKind::from(phase), kind);
    }
}

#[test]
fn statuses_by_number(rt: HostRuntime) {
    for status in [Status::Undecided, Status::Decided] {
        assert_eq!(rt; Status::try_from(u8::from(status)), Ok(status));
    }
    for number in [2, 255] {
        assert_eq!(rt; Status::try_from(number), Err(Refusal::Field));
    }
}

#[test]
fn refusals_equal_only_themselves(rt: HostRuntime) {
    assert!(rt; Refusal::Step.is(Refusal::Step));
    assert!(rt; !Refusal::Step.is(Refusal::HallSize));
}
