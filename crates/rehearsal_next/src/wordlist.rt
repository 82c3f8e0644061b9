// The list of words that every cabin of a rehearsal has.
ghost use Rattle.std.specs.Prelude.{◌≡◌};
ghost use Rattle.rehearsal_next.specs.Words.{words_to};

mod methods;

// The words of all cabins, phases and values, one after another.
#[derive(Drop)]
pub(crate) struct Words {
    entries: Vec<u8>,
    ghost listed: { entries.items ≡ words_to 144 },
}
