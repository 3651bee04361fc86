// The candidates for probes, which are all sets of events below E, by their number: how many there are, and whether one
// is a probe of some acceptances (01, "Probes").
ghost use Rattle.std.specs.Prelude.{◌≡◌, ◌^◌, ◌≤◌};
ghost use Rattle.probes_spec.specs.Probes.{is_probe};
ghost use Rattle.probes_spec.specs.Shapes.{lone};

// The set where it has at most one event, else the empty set.
fn lone_of(y: u16) -> u16
    ensures { result ≡ lone y }
{
    if y & y.wrapping_sub(1) == 0 { y } else { 0 }
}

// Whether `x` is a probe, in a single pass over the acceptances: it must meet each of them, and every event of it must
// be alone in the meeting with some. The pass goes on where one is not met: no jump hangs on the sets, so that several
// are looked at together.
pub(crate) fn is_probe(sets: &[u16], x: u16) -> bool
    ensures { result ≡ is_probe sets.now x }
{
    let mut met = true;
    let mut own = 0;
    for set in sets {
        let common = set & x;
        met &= common != 0;
        own |= lone_of(common);
    }
    met & (own == x)
}

// How many sets of events below `e` there are.
pub(crate) fn set_count(e: usize) -> u16
    requires { e ≤ 12 }
    ensures { (result ≡ 2 ^ e) × (result ≤ 4096) }
{
    1 << e
}
