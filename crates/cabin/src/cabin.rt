// A cabin, whose state keeps its bounds in the type.
ghost use Rattle.std.specs.Prelude.{◌+◌, ◌<◌, ◌≤◌};

use moves::State;

mod announcing;
mod hearing;
mod opening;

// A cabin at one branch point. Its table stays with the host, who lends it to each call.
// It cannot be copied, so that no call can be made on a cabin that a later call has left behind.
#[derive(Drop, Debug)]
pub struct Cabin {
    state: State,
    ghost seated: { state.number < state.settings.cabins },
    ghost begun: { 1 ≤ state.phase },
    ghost ended: { state.phase ≤ state.settings.phases + 1 },
    ghost valued: { state.value ≤ 2 },
}
