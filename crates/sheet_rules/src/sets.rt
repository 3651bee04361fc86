// The sets of one row: rule 7 of them (01), each against those before it and the row's initials.
ghost use Rattle.std.specs.Prelude.{◌≡◌, ◌<◌};
ghost use Rattle.sheet_spec.specs.Rules.{ascends, none_inside, set_ok, row_sets_ok};
ghost use Rattle.sheet_rules.specs.SetShapes.{sets_alone};

use sheet_spec::Row;

// 7: whether the set at place j is greater than the one before it.
#[tactic(auto, unfolding(sheet_spec::specs::Rules::ascends, sheet_spec::specs::Kept::acceptance, crate::specs::SetShapes::sets_alone))]
fn is_ascending(sets: &[u16; 16], j: usize) -> bool
    requires { j < 16 }
    ensures { result ≡ ascends (sets_alone sets.now) j }
{
    j == 0 || sets[j - 1] < sets[j]
}

// 7: whether no set before place j is included in the one there: each has an event outside it. (`events::is_inside`
// would say so too, but is compiled to work out what is outside for each of them.)
fn is_apart(sets: &[u16; 16], j: usize) -> bool
    requires { j < 16 }
    ensures { result ≡ none_inside (sets_alone sets.now) j }
{
    let outside = !sets[j];
    sets[..j].iter().all(|&x| x & outside != 0)
}

// 7: whether the set at place j ascends, lies inside the initials, and includes none before it.
#[tactic(auto, unfolding(sheet_spec::specs::Rules::set_ok, sheet_spec::specs::Kept::acceptance, crate::specs::SetShapes::sets_alone))]
fn set_ok(initial: u16, sets: &[u16; 16], j: usize) -> bool
    requires { j < 16 }
    ensures { result ≡ set_ok initial (sets_alone sets.now) j }
{
    is_ascending(sets, j) && events::is_inside(sets[j], initial) && is_apart(sets, j)
}

// 7: whether all sets of the row ascend, lie inside its initials, and include none before them; the sets are lent, so
// that a call for each copies no row.
pub(crate) fn row_sets_ok(row: Row, e: usize) -> bool
    ensures { result ≡ row_sets_ok e row }
{
    let initial = sheet_rows::initials_of(row, e);
    let c = usize::from(row.c);
    if c > 16 {
        return false;
    }
    (0..c).all(|j| set_ok(initial, &row.sets, j))
}
