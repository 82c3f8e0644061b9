// Making settings, reading them, and the two quorums.
ghost use Rattle.std.specs.Prelude.{◌≡◌};
ghost use Rattle.settings.specs.Bounds.{quorum_of, weak_quorum_of};
ghost use Rattle.settings.specs.Making.{settings_answer, settings_numbers};
ghost use Rattle.settings.specs.Refusals.{told};

use crate::{CYCLE, Refusal, Settings};

const FEWEST_CABINS: u8 = 4;

const MOST_CABINS: u8 = 16;

const MOST_PHASES: u16 = 24;

impl Settings {
    // Settings of `cabins` cabins, of which `faults` may be faulty, with the last phase `phases`.
    pub fn new(cabins: u8, faults: u8, phases: u16) -> Result<Settings, Refusal>
        ensures { told settings_numbers result ≡ settings_answer cabins faults phases }
    {
        if cabins < FEWEST_CABINS
            || cabins > MOST_CABINS
            || 3 * u16::from(faults) >= u16::from(cabins)
        {
            return Err(Refusal::HallSize);
        }
        if phases < CYCLE || phases > MOST_PHASES || phases % CYCLE != 0 {
            return Err(Refusal::LastPhase);
        }
        Ok(Settings {
            cabins,
            faults,
            phases,
        })
    }

    // n, the number of cabins
    pub fn cabins(&self) -> u8
        ensures { result ≡ self.now.cabins }
    {
        self.cabins
    }

    // f, the most cabins that may be faulty
    pub fn faults(&self) -> u8
        ensures { result ≡ self.now.faults }
    {
        self.faults
    }

    // P, the last phase: phases run from 1 to P
    pub fn phases(&self) -> u16
        ensures { result ≡ self.now.phases }
    {
        self.phases
    }

    // q, the quorum: two sets of q cabins share an honest one
    pub fn quorum(&self) -> u8
        ensures { result ≡ quorum_of self.now.cabins self.now.faults }
    {
        (self.cabins + self.faults) / 2 + 1
    }

    // h, the weak quorum: h cabins include an honest one. A call of its own, since q and h are two numbers of the protocol.
    pub fn weak_quorum(&self) -> u8
        ensures { result ≡ weak_quorum_of self.now.cabins self.now.faults }
    {
        (self.cabins + self.faults) / 4 + 1
    }
}
