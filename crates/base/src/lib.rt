// What every crate uses: a byte widened to a machine word. (The crate's specs have the laws of bounded tests, tables
// and lent lists.)
#![tactic(auto)]

ghost use Rattle.std.specs.Prelude.{◌≡◌};

// A byte as a word.
pub fn wide(x: u8) -> usize
    ensures { result ≡ x }
{
    x as usize
}
