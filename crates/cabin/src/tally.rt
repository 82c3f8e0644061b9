// What a hearing counts on its way, and what it tells at the end.
ghost use Rattle.std.specs.Prelude.{◌≡◌, ◌<◌};
ghost use Rattle.settings.specs.Refusals.{told};
ghost use Rattle.moves.specs.Hearing.{telling};
ghost use Rattle.cabin.specs.Records.{counted_with, records_counted};
ghost use Rattle.cabin.specs.Views.{heard_view, tally_view};

use moves::{Fault, Finding};
use packets::Fields;
use settings::Refusal;

// What a hearing tells: how many records were kept, known and turned away, and the first fault, if there was one.
#[derive(Clone, Copy, Debug)]
pub struct Heard {
    pub tallies: (u8, u8, u8),
    pub fault: Option<Fault>,
}

// How far a hearing has come: the three counts, the first fault, and of the records kept the last one of the highest phase.
#[derive(Clone, Copy, Default)]
pub(crate) struct Tally {
    kept: u8,
    known: u8,
    turned: u8,
    fault: Option<Fault>,
    pub(crate) ahead: Option<Fields>,
}

impl Tally {
    // Counts the record at a place, by what was found of it or why it was turned away.
    pub(crate) fn count(&mut self, place: usize, answer: Result<(Finding, Fields), Refusal>)
        requires { records_counted (tally_view self.old) < 255 }
        ensures { tally_view self.new ≡ counted_with place (told (λ x. x) answer) (tally_view self.old) }
    {
        match answer {
            Ok((Finding::New, fields)) => {
                self.kept += 1;
                if self.ahead.is_none_or(|ahead| ahead.phase <= fields.phase) {
                    self.ahead = Some(fields);
                }
            }
            Ok((Finding::Known, _)) => self.known += 1,
            Err(refusal) => {
                self.turned += 1;
                // no `or`: with it the promise of this case is not found
                if self.fault.is_none() {
                    self.fault = Some(Fault::new(refusal, place));
                }
            }
        }
    }

    // What the hearing tells.
    pub(crate) fn heard(self) -> Heard
        ensures { heard_view result ≡ telling (tally_view self) }
    {
        Heard {
            tallies: (self.kept, self.known, self.turned),
            fault: self.fault,
        }
    }
}
