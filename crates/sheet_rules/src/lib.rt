// The rules of a sheet (01, "Who can cause a refusal"; 02, K1): 3 of E and N, 18 of the codes, 5 of a row's count, 6
// and 7 of its successors, sets and unused places, 8 of the graph. And the refusals that they give, of a kept sheet and
// of one that was just read.
#![tactic(auto)]

mod reached;
mod rows;
mod sets;

ghost use Rattle.std.specs.Prelude.{◌≡◌, ◌≤◌};
ghost use Rattle.refusals.specs.Numbers.{refusal_in};
ghost use Rattle.sheet_spec.specs.Rules.{ranges_ok, count_ok, counts_ok, successors_ok, sets_ok, blanks_ok};
ghost use Rattle.sheet_spec.specs.Refusals.{graph_fault, sheet_fault};

use refusals::Refusal;
use sheet_spec::Sheet;

// 3: whether E and N are in range.
#[tactic(auto, unfolding(sheet_spec::specs::Rules::ranges_ok))]
pub fn ranges_ok(e: u8, n: u8) -> bool
    ensures { result ≡ ranges_ok e n }
{
    (1..=12).contains(&e) && (1..=32).contains(&n)
}

// 5: whether a count is 1 to 16.
#[tactic(auto, unfolding(sheet_spec::specs::Rules::count_ok))]
pub fn count_ok(c: u8) -> bool
    ensures { result ≡ count_ok c }
{
    (1..=16).contains(&c)
}

// ---- the rules of a whole sheet, which is lent, so that no rule copies it

// 5: whether the count of every node is 1 to 16.
fn counts_ok(s: &Sheet) -> bool
    requires { s.now.n ≤ 32 }
    ensures { result ≡ counts_ok s.now }
{
    (0..usize::from(s.n)).all(|v| {
        let row = s.rows[v];
        count_ok(row.c)
    })
}

// 6: whether the successors of every node are 255 or below N.
fn successors_ok(s: &Sheet) -> bool
    requires { s.now.n ≤ 32 }
    ensures { result ≡ successors_ok s.now }
{
    let e = usize::from(s.e);
    let n = usize::from(s.n);
    (0..n).all(|v| rows::row_successors_ok(s.rows[v], e, n))
}

// 7: whether the sets of every node ascend, lie inside its initials, and include none before them.
fn sets_ok(s: &Sheet) -> bool
    requires { s.now.n ≤ 32 }
    ensures { result ≡ sets_ok s.now }
{
    let e = usize::from(s.e);
    (0..usize::from(s.n)).all(|v| sets::row_sets_ok(s.rows[v], e))
}

// 7: whether the unused places of every row hold 255 and 0.
fn blanks_ok(s: &Sheet) -> bool
    ensures { result ≡ blanks_ok s.now }
{
    let e = usize::from(s.e);
    let n = usize::from(s.n);
    (0..32).all(|v| rows::unused_ok(s.rows[v], e, n, v))
}

// ---- the refusals

// The refusal of the graph that bytes spell: 6, 7, 8, each looked for in the whole sheet.
#[tactic(auto, unfolding(sheet_spec::specs::Refusals::graph_fault))]
pub fn graph_fault(sheet: Sheet) -> Result<(), Refusal>
    requires { sheet.n ≤ 32 }
    ensures { refusal_in result ≡ graph_fault sheet }
{
    if !successors_ok(&sheet) {
        return Err(Refusal::Successor);
    }
    if !sets_ok(&sheet) {
        return Err(Refusal::Acceptances);
    }
    if !reached::reached_ok(&sheet) {
        return Err(Refusal::Unreached);
    }
    Ok(())
}

// The refusal of a kept sheet with any content: 3, 18, 5, 6, 7, 8, each looked for in the whole sheet.
#[tactic(auto, unfolding(sheet_spec::specs::Refusals::sheet_fault))]
pub fn sheet_fault(s: Sheet) -> Result<(), Refusal>
    ensures { refusal_in result ≡ sheet_fault s }
{
    if !ranges_ok(s.e, s.n) {
        return Err(Refusal::Ranges);
    }
    let codes = s.codes;
    if !sheet_codes::is_distinct(&codes, s.e) {
        return Err(Refusal::CodeTwice);
    }
    if !counts_ok(&s) {
        return Err(Refusal::Count);
    }
    if !successors_ok(&s) {
        return Err(Refusal::Successor);
    }
    if !sets_ok(&s) {
        return Err(Refusal::Acceptances);
    }
    if !blanks_ok(&s) {
        return Err(Refusal::Acceptances);
    }
    if !sheet_codes::is_blank_from(&codes, s.e) {
        return Err(Refusal::Acceptances);
    }
    if !reached::reached_ok(&s) {
        return Err(Refusal::Unreached);
    }
    Ok(())
}
