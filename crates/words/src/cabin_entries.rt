// The entries of one cabin.
ghost use Rattle.std.specs.Prelude.{◌≡◌, ◌*◌, ◌<◌, length};

use crate::list::WordList;

mod methods;

// The entries of one cabin in a list, which has all of them.
#[derive(Copy)]
pub struct CabinEntries<'a, F> {
    pub(crate) list: WordList<'a, F>,
    pub(crate) cabin: u8,
    ghost seated: { cabin < list.cabins },
    ghost whole: { length list.entries.now ≡ 96 * list.cabins * list.phases },
}
