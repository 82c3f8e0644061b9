// The sealer over a hashed list.
ghost use Rattle.std.specs.Prelude.{◌≡◌, ◌*◌, true, length};
ghost use Rattle.words.specs.Checks.{list_view};
ghost use Rattle.words.specs.Own.{own_pass};

use crate::cabin_entries::CabinEntries;
use crate::form::Hashed;

mod methods;

// Seals for one cabin by its own words, whose digests are that cabin's entries in a hashed list.
#[derive(Clone, Copy)]
pub struct HashedSealer<'a> {
    entries: CabinEntries<'a, Hashed>,
    own: &'a [u8],
    ghost full: { length own.now ≡ 96 * entries.list.phases },
    ghost passing: { own_pass (list_view entries.list) entries.cabin own.now (3 * entries.list.phases) ≡ true },
}
