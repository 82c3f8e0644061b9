// What a step asks of a cabin, read from its eight bytes.
ghost use Rattle.std.specs.Prelude.{◌≡◌};
ghost use Rattle.rehearsal_next.specs.Steps.{step_of};

use crate::Claim;

// A step that asks something of a cabin.
#[derive(Clone, Copy)]
pub enum Step {
    // open with a choice
    Open { choice: u8 },
    // announce
    Announce,
    // hear the latest packet of a cabin
    Hear { sender: u8 },
    // hear a packet of one record, which anyone may have made up
    HearRecord { claim: Claim },
}

impl Step {
    // The step that the bytes say, or `None` where they say none. Byte 1, the cabin that acts, is not looked at.
    pub fn read(bytes: [u8; 8]) -> Option<Step>
        ensures { result ≡ step_of bytes }
    {
        match bytes {
            [1, _, 0, 0, choice, 0, 0, 0] => Some(Step::Open { choice }),
            [2, _, 0, 0, 0, 0, 0, 0] => Some(Step::Announce),
            [3, _, sender, 0, 0, 0, 0, 0] => Some(Step::Hear { sender }),
            [4, _, cabin, phase, value, status, 0, 0] => {
                let claim = Claim {
                    cabin,
                    phase,
                    value,
                    status,
                };
                Some(Step::HearRecord { claim })
            }
            _ => None,
        }
    }
}
