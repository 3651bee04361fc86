// A keypad's table (02, K6): `check` says whether just one rule matches each code, `find` turns a code into its event.
// Both take any sheet and any bytes, and answer why they refuse, or of a bad table its smallest bad code. A code is
// looked at rule by rule, and left at the second rule that matches it.
#![tactic(auto)]

ghost use Rattle.std.specs.Prelude.{◌≡◌, ◌≢◌, ◌≤◌, ◌<◌, eqb};
ghost use Rattle.refusals.specs.Numbers.{refusal_in, numbered};
ghost use Rattle.keypad_spec.specs.Tables.{rule_count, event_of, match_count, bad_code, match_from, lowest, if_below};
ghost use Rattle.keypad_spec.specs.Tables.{bad_answer, table_answer};
ghost use Rattle.keypad_spec.specs.Calls.{size_ok, values_ok, events_ok, table_fault, keypad_fault, keypad_of, found_of};
ghost use Rattle.keypad_spec.specs.Numbers.{keyed, looked};

use keypad_spec::{Found, Keypad};
use refusals::Refusal;
use sheet_spec::Sheet;

// ---- the refusals

// 21: whether the bytes are 1 to 64 rules, none of them a part.
#[tactic(auto, unfolding(keypad_spec::specs::Calls::size_ok))]
fn is_whole(table: &[u8]) -> bool
    ensures { result ≡ size_ok table.now }
{
    table.len() % 3 == 0 && (1..=64).contains(&(table.len() / 3))
}

// 22: whether no rule's value has a bit outside its mask.
fn values_inside(table: &[u8]) -> bool
    ensures { result ≡ values_ok table.now }
{
    (0..table.len() / 3).all(|i| table[3 * i + 1] & table[3 * i] == table[3 * i + 1])
}

// 23: whether every rule's event is below `e`.
fn events_below(table: &[u8], e: u8) -> bool
    ensures { result ≡ events_ok e table.now }
{
    (0..table.len() / 3).all(|i| table[3 * i + 2] < e)
}

// Why a table is refused with a sheet of `e` events, if it is.
#[tactic(auto, unfolding(keypad_spec::specs::Calls::table_fault))]
fn table_fault(table: &[u8], e: u8) -> Result<(), Refusal>
    ensures { refusal_in result ≡ table_fault e table.now }
{
    if !is_whole(table) {
        return Err(Refusal::Table);
    }
    if !values_inside(table) {
        return Err(Refusal::RuleValue);
    }
    if !events_below(table, e) {
        return Err(Refusal::RuleEvent);
    }
    Ok(())
}

// ---- the codes

// The lowest rule, from rule `from` on, that matches the code.
fn match_from(table: &[u8], code: u8, from: usize) -> Option<usize>
    ensures { result ≡ if_below (rule_count table.now) (match_from table.now code from) }
{
    let rules = table.len() / 3;
    for i in from..rules {
        if code & table[3 * i] == table[3 * i + 1] {
            return Some(i);
        }
    }
    None
}

// Whether just one rule matches the code.
fn has_one(table: &[u8], code: u8) -> bool
    ensures { result ≡ eqb (match_count table.now code) 1 }
{
    match match_from(table, code, 0) {
        Some(i) => match_from(table, code, i + 1).is_none(),
        None => false,
    }
}

// The smallest bad code: one that no rule matches, or more than one.
fn bad_code(table: &[u8]) -> Option<u8>
    ensures { result ≡ if_below 256 (bad_code table.now) }
{
    for code in 0..=255 {
        if !has_one(table, code) {
            return Some(code);
        }
    }
    None
}

// What is told of a bad code of a table of at most 64 rules: a gap, or an overlap with the two lowest rules that match
// it.
fn bad_answer(table: &[u8], code: u8) -> Keypad
    requires { (rule_count table.now ≤ 64) × (match_count table.now code ≢ 1) }
    ensures { result ≡ bad_answer table.now code }
{
    match match_from(table, code, 0) {
        Some(i) => {
            let k = match_from(table, code, i + 1).unwrap();
            Keypad::Overlap(code, i as u8, k as u8)
        },
        None => Keypad::Gap(code),
    }
}

// What is told of a table of at most 64 rules.
fn table_answer(table: &[u8]) -> Keypad
    requires { rule_count table.now ≤ 64 }
    ensures { result ≡ table_answer table.now }
{
    match bad_code(table) {
        Some(code) => bad_answer(table, code),
        None => Keypad::Good,
    }
}

// ---- the calls

// Whether just one rule of the table matches each code: good, or the smallest bad code with its gap or overlap; or why
// the call is refused: the sheet's own; 21, no rule, over 64 or a part of one; 22, a value with a bit outside its mask;
// 23, an event that is not below E.
pub fn check(sheet: Sheet, table: &[u8]) -> Result<Keypad, Refusal>
    ensures { (numbered result ≡ keypad_of sheet table.now)
        × ((keyed (numbered result)).refusal ≡ keypad_fault sheet table.now) }
{
    sheet::check(sheet)?;
    table_fault(table, sheet.e)?;
    Ok(table_answer(table))
}

// The event of the lowest rule that matches the code; some rule does.
fn event_of(table: &[u8], code: u8) -> u8
    requires { lowest table.now code < rule_count table.now }
    ensures { result ≡ event_of table.now (lowest table.now code) }
{
    let i = match_from(table, code, 0).unwrap();
    table[3 * i + 2]
}

// The event that a good table turns the code into; or the gap or the overlap that a check of the table answers, or why
// it refuses, whatever the code is.
pub fn find(sheet: Sheet, table: &[u8], code: u8) -> Result<Found, Refusal>
    ensures { (numbered result ≡ found_of sheet table.now code)
        × ((looked (numbered result)).refusal ≡ keypad_fault sheet table.now) }
{
    let found = match check(sheet, table)? {
        Keypad::Good => Found::Event(event_of(table, code)),
        Keypad::Gap(c) => Found::Gap(c),
        Keypad::Overlap(c, i, k) => Found::Overlap(c, i, k),
    };
    Ok(found)
}
