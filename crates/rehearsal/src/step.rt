// What a step asks for, read from its eight bytes.
ghost use Rattle.std.specs.Prelude.{◌≡◌};
ghost use Rattle.rehearsal.specs.Steps.{step_of};

// A step that asks for something. Stands beside that of `rehearsal_next`, since `hall` does what it did until that one takes its place.
#[derive(Clone, Copy)]
pub enum Step {
    // open a cabin with a choice
    Open { cabin: u8, choice: u8 },
}

impl Step {
    // The step that the bytes say, or `None` where they say none.
    pub fn read(bytes: [u8; 8]) -> Option<Step>
        ensures { result ≡ step_of bytes }
    {
        match bytes {
            [1, cabin, 0, 0, choice, 0, 0, 0] => Some(Step::Open { cabin, choice }),
            _ => None,
        }
    }
}
