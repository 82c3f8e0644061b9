// The settings of every rehearsal.
ghost use Rattle.std.specs.Prelude.{◌≡◌};
ghost use Rattle.script.specs.Settings.{rehearsal_settings};

use settings::Settings;

const CABINS: u8 = 4;

const FAULTS: u8 = 1;

const PHASES: u16 = 12;

// The branch point of every cabin.
pub const BRANCH: u16 = 0;

// The settings of the hall.
#[tactic(auto, using(settings::proofs::Same::same_from_numbers))]
pub fn settings() -> Settings
    ensures { result ≡ rehearsal_settings }
{
    Settings::new(CABINS, FAULTS, PHASES).unwrap()
}
