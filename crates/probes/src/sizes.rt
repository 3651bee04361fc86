// Sets in the order of a probe list (02, K3): those with fewer events first. They come by their number, so one pass for
// each size leaves the lower numbers first among sets with as many events.
ghost use Rattle.std.specs.Prelude.{◌≡◌, suc, ◌+◌, ◌≤◌, ◌++◌, length, take};
ghost use Rattle.base.specs.Front.{at_front};
ghost use Rattle.base.specs.Joined.{joined};
ghost use Rattle.probes_spec.specs.Shapes.{of_size};

// Writes the sets of `size` events among some, in their order, from place `at` of a list on, and answers the place
// after them.
fn put_size(found: &[u16], size: usize, out: &mut [u16], at: usize) -> usize
    requires { at + length (of_size found.now size) ≤ length out.old }
    ensures { (out.new
        ≡ at_front out.old (take at out.old ++ of_size found.now size))
        × (result ≡ at + length (of_size found.now size)) }
{
    let mut next = at;
    for x in found {
        if x.count_ones() as usize == size {
            out[next] = *x;
            next += 1;
        }
    }
    next
}

// Writes the sets of up to `e` events among some to the front of a list that is long enough: those of no event, then
// those of one event, and so on, each in their order.
pub(crate) fn put_by_size(found: &[u16], e: usize, out: &mut [u16])
    requires { (e ≤ 12) × (length found.now ≤ length out.old) }
    ensures { out.new ≡ at_front out.old (joined (of_size found.now) (suc e)) }
{
    let mut at = 0;
    for size in 0..=e {
        at = put_size(found, size, out, at);
    }
}
