// How a step is answered.
ghost use Rattle.std.specs.Prelude.{◌≡◌};
ghost use Rattle.script.specs.Answers.{Reply, done_reply, heard_reply, shown_number};

use settings::Refusal;

// An answer to a step, which its line shows by a number.
pub trait Outcome: Copy {
    // the answer as the rules see it
    ghost reply: { Self → Reply };

    // 0 where the step is done, else the number of a refusal.
    fn number(self) -> u8
        ensures { result ≡ shown_number (reply self) };
}

// A step is done, or it is refused.
impl Outcome for Result<(), Refusal> {
    ghost reply = { done_reply };

    fn number(self) -> u8 {
        self.err().map_or(0, u8::from)
    }
}

// A step is done, and tells why the first record that it heard was turned away, if one was; or it is refused.
impl Outcome for Result<Option<Refusal>, Refusal> {
    ghost reply = { heard_reply };

    fn number(self) -> u8 {
        match self {
            Ok(None) => 0,
            Ok(Some(fault)) => u8::from(fault),
            Err(refusal) => u8::from(refusal),
        }
    }
}
