// What a cabin knows of itself.
ghost use Rattle.std.specs.Prelude.{◌≡◌};

use settings::{Settings, Status};
use table::{Place, Table};

// What a cabin knows of itself at one branch point.
#[derive(Clone, Copy, PartialEq, Eq, Debug)]
pub struct State {
    pub settings: Settings,
    // the cabin's number in its hall, from 0
    pub number: u8,
    // the branch point that the hall settles
    pub branch: u16,
    // from 1; after the last phase it is one more than that
    pub phase: u16,
    // 0 or 1, a course; 2 is no preference: a number, as records have it, of which a reader tells any byte
    pub value: u8,
    pub status: Status,
    // the course that was decided; once there it stays
    pub decision: Option<u8>,
    // the mark: whether the cabin has announced in this phase
    pub announced: bool,
}

impl State {
    // The table that the host lends, with the settings of its hall.
    pub fn table<'a>(&self, places: &'a [Place]) -> Table<'a>
        ensures settings { result.settings ≡ self.now.settings }
        ensures places { result.places.now ≡ places.now }
    {
        Table {
            settings: self.settings,
            places,
        }
    }
}
