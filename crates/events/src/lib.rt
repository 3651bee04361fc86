// Sets of events as 16-bit numbers, in which event i adds 2 to the power i: membership, inclusion, adding one event.
// Each takes every argument, except that `with_event` takes events below 16 only; no event from 16 on is in a set.
#![tactic(auto)]

ghost use Rattle.std.specs.Prelude.{◌≡◌, ◌<◌};
ghost use Rattle.events.specs.Sets.{has, inside, insert};

// Whether the event is in the set.
pub fn contains(set: u16, event: usize) -> bool
    ensures { result ≡ has set event }
{
    if event < 16 {
        (set >> event) % 2 == 1
    } else {
        false
    }
}

// Whether every event of `x` is in `y`.
pub fn is_inside(x: u16, y: u16) -> bool
    ensures { result ≡ inside x y }
{
    x & y == x
}

// The set with the event added, there already or not: its bit is added where it is 0, on one path.
pub fn with_event(set: u16, event: usize) -> u16
    requires { event < 16 }
    ensures { result ≡ insert set event }
{
    let absent = 1 - (set >> event) % 2;
    set + (absent << event)
}
