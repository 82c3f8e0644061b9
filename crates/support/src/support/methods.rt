// Filling a support, and reading it.
ghost use Rattle.std.specs.Prelude.{◌≡◌, ◌<◌, [], ◌∷◌, ◌++◌, length};
ghost use Rattle.support.specs.Support.{most_support};
ghost use Rattle.support.specs.View.{support_places, place_at};

use super::MOST_SUPPORT;
use crate::Support;

impl Support {
    // A support with no places.
    pub fn none() -> Support
        ensures { support_places result ≡ [] }
    {
        Support {
            places: [0; MOST_SUPPORT],
            count: 0,
        }
    }

    // Adds a place at the end.
    pub(crate) fn push(&mut self, place: u16)
        requires { length (support_places self.old) < most_support }
        ensures { support_places self.new ≡ support_places self.old ++ place ∷ [] }
    {
        self.places[usize::from(self.count)] = place;
        self.count += 1;
    }

    // The number of places.
    pub fn len(&self) -> usize
        ensures { result ≡ length (support_places self.now) }
    {
        usize::from(self.count)
    }

    // The places, in the order in which they were added.
    pub fn places(&self) -> &[u16]
        ensures { result.now ≡ support_places self.now }
    {
        &self.places[..self.len()]
    }

    // The place with this index, if there are so many.
    pub fn place(&self, index: usize) -> Option<u16>
        ensures { result ≡ place_at (support_places self.now) index }
    {
        self.places().get(index).copied()
    }
}
