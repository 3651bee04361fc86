// The edge: what C and Rust call, each function under the prefix `bench_`. None has a `requires`: every content of what
// is lent or handed over is answered. Slices arrive as a pointer and a length, a run's record that is lent as a
// pointer, structs by value; all in the layout of C (include/bench.h). Each result is equated with the definition of
// the call, in 01's numbers for each case of its answer.
#![tactic(auto)]

ghost use Rattle.std.specs.Prelude.{◌≡◌};
ghost use Rattle.sheet_spec.specs.Refusals.{sheet_fault};
ghost use Rattle.refusals.specs.Numbers.{refusal_in, numbered};
ghost use Rattle.sheet_spec.specs.Reading.{kept, read_sheet};
ghost use Rattle.probes_spec.specs.Listing.{listed_numbers, listed_of, list_after};
ghost use Rattle.probes_spec.specs.Nodes.{nodes_listed, nodes_list_after};
ghost use Rattle.tests_spec.specs.Flags.{flag};
ghost use Rattle.tests_spec.specs.Runs.{open_of, step_of};
ghost use Rattle.verdicts_spec.specs.Verdicts.{verdict_of};
ghost use Rattle.tests_spec.specs.Numbers.{said};
ghost use Rattle.verdicts_spec.specs.Numbers.{judged};
ghost use Rattle.verdicts_spec.specs.Suites.{suite_of, verdicts_after};
ghost use Rattle.verdicts_spec.specs.Numbers.{suited};
ghost use Rattle.comparison_spec.specs.Comparison.{outcome_of, trace_after, work_after};
ghost use Rattle.comparison_spec.specs.Numbers.{compared};
ghost use Rattle.scripts_spec.specs.Scripts.{counted, scripts_of};
ghost use Rattle.keypad_spec.specs.Calls.{keypad_of, found_of};
ghost use Rattle.keypad_spec.specs.Numbers.{keyed, looked};
ghost use Rattle.load_spec.specs.Calls.{walked_numbers, walked_of, walk_after};
ghost use Rattle.bound_spec.specs.Calls.{bound_numbers, bound_of, reference_after, device_after};
ghost use Rattle.edge.specs.Flat.{report_flat, listed_flat, said_flat, stepped_flat, judged_flat, suited_flat, compared_flat};
ghost use Rattle.edge.specs.Flat.{keyed_flat, looked_flat, walked_flat, bounded_flat};

use bound_spec::Lengths;
use comparison_spec::Outcome;
use keypad_spec::{Found, Keypad};
use probes_spec::Listed;
use refusals::Refusal;
use scripts_spec::{Counts, Scripts};
use sheet_spec::{ReadSheet, Row, Sheet};
use tests_spec::{Answer, Report, Run, Stepped};
use verdicts_spec::Verdict;

// ---- sheets

// 0 in every place of a row.
const NO_ROW: Row = Row {
    succ: [0; 12],
    sets: [0; 16],
    c: 0,
};

// 0 in every place of a sheet.
const NO_SHEET: Sheet = Sheet {
    rows: [NO_ROW; 32],
    e: 0,
    n: 0,
    codes: [0; 12],
};

// The number of a refusal, 0 for none.
fn number(answer: Result<(), Refusal>) -> u8
    ensures { result ≡ refusal_in answer }
{
    match answer {
        Ok(()) => 0,
        Err(cause) => u8::from(cause),
    }
}

// The sheet of a reading, or the number of its refusal. The reading is lent: handed over, it would stand in the frame of
// the call once more.
fn kept(answer: &Result<Sheet, Refusal>) -> ReadSheet
    ensures { result ≡ kept answer.now }
{
    match answer {
        Ok(sheet) => ReadSheet {
            refusal: 0,
            sheet: *sheet,
        },
        Err(cause) => ReadSheet {
            refusal: u8::from(*cause),
            sheet: NO_SHEET,
        },
    }
}

// The sheet that the bytes spell; or the number of the refusal, 1 to 8 or 18, and 0 in every other place.
#[unsafe(no_mangle)]
pub extern "C" fn bench_read(bytes: &[u8]) -> ReadSheet
    ensures { result ≡ read_sheet bytes.now }
{
    kept(&sheet::read(bytes))
}

// The refusal of a kept sheet with any content: 3, 18 or 5 to 8, 0 for none.
#[unsafe(no_mangle)]
pub extern "C" fn bench_check(s: Sheet) -> u8
    ensures { result ≡ sheet_fault s }
{
    number(sheet::check(s))
}

// ---- probes

// The answer of a probe list: the refusal, 0 for none, and how many probes there are.
#[repr(C)]
#[derive(Clone, Copy, Default)]
pub struct BenchListed {
    pub refusal: u8,
    pub count: u16,
}

impl From<Listed> for BenchListed {
    ghost from_gives = { λ a b. b ≡ listed_flat (listed_numbers (numbered a)) };

    #[tactic(auto, using(probes_spec::proofs::ListingLaws::listed_numbers_count, probes_spec::proofs::ListingLaws::listed_numbers_denied), unfolding(crate::specs::Flat::listed_flat))]
    fn from(answer: Listed) -> BenchListed {
        match answer {
            Ok(count) => BenchListed { refusal: 0, count },
            Err(cause) => BenchListed {
                refusal: u8::from(cause),
                ..BenchListed::default()
            },
        }
    }
}

// Writes the probes of a node to the front of the lent list and answers how many there are; or the number of the
// refusal.
#[unsafe(no_mangle)]
pub extern "C" fn bench_list(sheet: Sheet, node: u8, out: &mut [u16]) -> BenchListed
    ensures { (result ≡ listed_flat (listed_numbers (listed_of sheet node out.old)))
        × (out.new ≡ list_after sheet node out.old) }
{
    probes::list(sheet, node, out).into()
}

// Writes the probes for the nodes of a set to the front of the lent list and answers how many there are; or the number
// of the refusal.
#[unsafe(no_mangle)]
pub extern "C" fn bench_list_nodes(sheet: Sheet, nodes: u32, out: &mut [u16]) -> BenchListed
    ensures { (result ≡ listed_flat (listed_numbers (nodes_listed sheet nodes out.old)))
        × (out.new ≡ nodes_list_after sheet nodes out.old) }
{
    probes::list_nodes(sheet, nodes, out).into()
}

// ---- tests

// An answer in numbers: the refusal, 0 for none; the kind, 0 for a refusal; the event or set of that kind.
#[repr(C)]
#[derive(Clone, Copy, Default)]
pub struct BenchSaid {
    pub refusal: u8,
    pub kind: u8,
    pub value: u16,
}

// An answer and the record after it.
#[repr(C)]
#[derive(Clone, Copy)]
pub struct BenchStepped {
    pub answer: BenchSaid,
    pub run: Run,
}

impl BenchSaid {
    // An answer of a kind with its event or set.
    fn of(kind: u8, value: u16) -> BenchSaid
        ensures { result ≡ record { refusal = 0; kind = kind; value = value } }
    {
        BenchSaid {
            refusal: 0,
            kind,
            value,
        }
    }
}

impl From<Answer> for BenchSaid {
    ghost from_gives = { λ a b. b ≡ said_flat (said a) };

    #[tactic(auto, unfolding(crate::specs::Flat::said_flat, tests_spec::specs::Numbers::said))]
    fn from(answer: Answer) -> BenchSaid {
        match answer {
            Answer::Going(set) => BenchSaid::of(1, set),
            Answer::Stray(event) => BenchSaid::of(2, u16::from(event)),
            Answer::Refused(set) => BenchSaid::of(3, set),
            Answer::Passed => BenchSaid::of(4, 0),
            Answer::Inconclusive => BenchSaid::of(5, 0),
            Answer::Denied(refusal) => BenchSaid {
                refusal,
                ..BenchSaid::default()
            },
        }
    }
}

// The report that a number is: below 256 that event, else "blocked".
#[tactic(auto, unfolding(crate::specs::Flat::report_flat))]
fn report_flat(x: u16) -> Report
    ensures { result ≡ report_flat x }
{
    match u8::try_from(x) {
        Ok(event) => Report::Event(event),
        Err(_) => Report::Blocked,
    }
}

impl From<Stepped> for BenchStepped {
    ghost from_gives = { λ a b. (b.answer ≡ said_flat (said a.answer)) × (b.run ≡ a.run) };

    fn from(stepped: Stepped) -> BenchStepped {
        BenchStepped {
            answer: stepped.answer.into(),
            run: stepped.run,
        }
    }
}

// Opens test `k` with the choice number `h`, trace-only if `trace_only` is not 0: the first offer and the record; or
// the number of the refusal and a record of zeros.
#[unsafe(no_mangle)]
#[tactic(auto, unfolding(tests_spec::specs::Flags::flag))]
pub extern "C" fn bench_open(sheet: Sheet, k: u16, h: u16, trace_only: u8) -> BenchStepped
    ensures { result ≡ stepped_flat (open_of (flag trace_only) sheet k h) }
{
    tests::open_test(sheet, k, h, trace_only != 0).into()
}

// Answers a report, and gives the record after it; a refusal gives its number and the record as it came.
#[unsafe(no_mangle)]
pub extern "C" fn bench_step(sheet: Sheet, run: Run, report: u16) -> BenchStepped
    ensures { result ≡ stepped_flat (step_of sheet run (report_flat report)) }
{
    tests::step(sheet, run, report_flat(report)).into()
}

// Answers a report on the record that the bench holds, and stores the record after it there.
#[unsafe(no_mangle)]
pub extern "C" fn bench_report(run: &mut Run, sheet: Sheet, report: u16) -> BenchSaid
    ensures { (result ≡ said_flat (said (step_of sheet run.old (report_flat report)).answer))
        × (run.new ≡ (step_of sheet run.old (report_flat report)).run) }
{
    tests::take_report(run, sheet, report_flat(report)).into()
}

// ---- verdicts

// A verdict in numbers: the refusal, 0 for none; the kind, 0 for a refusal, else the number of the verdict.
#[repr(C)]
#[derive(Clone, Copy, Default)]
pub struct BenchJudged {
    pub refusal: u8,
    pub kind: u8,
}

impl From<Result<Verdict, Refusal>> for BenchJudged {
    ghost from_gives = { λ a b. b ≡ judged_flat (judged (numbered a)) };

    #[tactic(auto, unfolding(crate::specs::Flat::judged_flat, verdicts_spec::specs::Numbers::judged))]
    fn from(answer: Result<Verdict, Refusal>) -> BenchJudged {
        match answer {
            Ok(Verdict::Passes) => BenchJudged {
                refusal: 0,
                kind: 11,
            },
            Ok(Verdict::Fails) => BenchJudged {
                refusal: 0,
                kind: 12,
            },
            Err(cause) => BenchJudged {
                refusal: u8::from(cause),
                ..BenchJudged::default()
            },
        }
    }
}

// The verdict on a device for test `k`, or the number of the refusal.
#[unsafe(no_mangle)]
#[tactic(auto, unfolding(tests_spec::specs::Flags::flag))]
pub extern "C" fn bench_judge(
    reference: Sheet,
    device: Sheet,
    k: u16,
    trace_only: u8,
) -> BenchJudged
    ensures { result ≡ judged_flat (judged (verdict_of (flag trace_only) reference device k)) }
{
    verdicts::judge(reference, device, k, trace_only != 0).into()
}

// The answer on all tests: the refusal, 0 for none, and how many were judged.
#[repr(C)]
#[derive(Clone, Copy, Default)]
pub struct BenchSuited {
    pub refusal: u8,
    pub count: u16,
}

impl From<Result<u16, Refusal>> for BenchSuited {
    ghost from_gives = { λ a b. b ≡ suited_flat (suited (numbered a)) };

    #[tactic(auto, unfolding(crate::specs::Flat::suited_flat, verdicts_spec::specs::Numbers::suited))]
    fn from(answer: Result<u16, Refusal>) -> BenchSuited {
        match answer {
            Ok(count) => BenchSuited { refusal: 0, count },
            Err(cause) => BenchSuited {
                refusal: u8::from(cause),
                ..BenchSuited::default()
            },
        }
    }
}

// Judges tests 0 to p q - 1, trace-only if `trace_only` is not 0: writes 11 for "passes" or 12 for "fails" for each
// to the front of the lent list and answers how many there are; or the number of the refusal, and the list is as it
// was.
#[unsafe(no_mangle)]
#[tactic(auto, unfolding(tests_spec::specs::Flags::flag))]
pub extern "C" fn bench_judge_all(
    reference: Sheet,
    device: Sheet,
    trace_only: u8,
    out: &mut [u8],
) -> BenchSuited
    ensures { (result ≡ suited_flat (suited (suite_of reference device out.old)))
        × (out.new ≡ verdicts_after (flag trace_only) reference device out.old) }
{
    verdicts::judge_all(reference, device, trace_only != 0, out).into()
}

// ---- comparisons

// The answer of a comparison in numbers: the refusal, 0 for none; the kind; d; cleared; what is named.
#[repr(C)]
#[derive(Clone, Copy, Default)]
pub struct BenchCompared {
    pub refusal: u8,
    pub kind: u8,
    pub d: u16,
    pub cleared: u16,
    pub event: u8,
    pub probe: u16,
    pub acceptance: u16,
}

impl From<Result<Outcome, Refusal>> for BenchCompared {
    ghost from_gives = { λ a b. b ≡ compared_flat (compared (numbered a)) };

    #[tactic(auto, unfolding(crate::specs::Flat::compared_flat, comparison_spec::specs::Numbers::compared))]
    fn from(answer: Result<Outcome, Refusal>) -> BenchCompared {
        match answer {
            Ok(Outcome::Refines(cleared)) => BenchCompared {
                kind: 21,
                cleared,
                ..BenchCompared::default()
            },
            Ok(Outcome::Stray(d, cleared, event)) => BenchCompared {
                kind: 22,
                d,
                cleared,
                event,
                ..BenchCompared::default()
            },
            Ok(Outcome::Refusal(d, cleared, probe, acceptance)) => BenchCompared {
                kind: 23,
                d,
                cleared,
                probe,
                acceptance,
                ..BenchCompared::default()
            },
            Err(cause) => BenchCompared {
                refusal: u8::from(cause),
                ..BenchCompared::default()
            },
        }
    }
}

// Compares a device's sheet with a reference's, with traces alone if `trace_only` is not 0: the answer, the work list's
// words set to 0 and the trace at the front of its list; or the number of the refusal, and both lists are as they were.
#[unsafe(no_mangle)]
#[tactic(auto, unfolding(tests_spec::specs::Flags::flag))]
pub extern "C" fn bench_compare(
    reference: Sheet,
    device: Sheet,
    trace_only: u8,
    work: &mut [u16],
    trace: &mut [u8],
) -> BenchCompared
    ensures { (result ≡ compared_flat
        (compared (outcome_of (flag trace_only) reference device work.old trace.old)))
        × (trace.new ≡ trace_after (flag trace_only) reference device work.old trace.old)
        × (work.new ≡ work_after reference device work.old trace.old) }
{
    comparison::compare(reference, device, trace_only != 0, work, trace).into()
}

// ---- scripts

// The numbers of a count.
#[tactic(auto, unfolding(scripts_spec::specs::Scripts::counted))]
fn counted(answer: Result<Counts, Refusal>) -> Scripts
    ensures { result ≡ counted answer }
{
    match answer {
        Ok(counts) => Scripts {
            refusal: 0,
            walked: counts.walked,
            device: counts.device,
            reference: counts.reference,
        },
        Err(cause) => Scripts {
            refusal: u8::from(cause),
            walked: 0,
            device: 0,
            reference: 0,
        },
    }
}

// Counts the scripts of `length` events that go each way; or answers the number of the refusal, and 0 in every other
// place.
#[unsafe(no_mangle)]
pub extern "C" fn bench_count(reference: Sheet, device: Sheet, length: u16) -> Scripts
    ensures { result ≡ scripts_of reference device length }
{
    counted(scripts::count(reference, device, length))
}

// ---- keypads

// The answer of a check of a keypad's table in numbers: the refusal, 0 for none; the kind; the smallest bad code; the
// two lowest rules that match it.
#[repr(C)]
#[derive(Clone, Copy, Default)]
pub struct BenchKeypad {
    pub refusal: u8,
    pub kind: u8,
    pub code: u8,
    pub first: u8,
    pub second: u8,
}

impl From<Result<Keypad, Refusal>> for BenchKeypad {
    ghost from_gives = { λ a b. b ≡ keyed_flat (keyed (numbered a)) };

    #[tactic(auto, unfolding(crate::specs::Flat::keyed_flat, keypad_spec::specs::Numbers::keyed))]
    fn from(answer: Result<Keypad, Refusal>) -> BenchKeypad {
        match answer {
            Ok(Keypad::Good) => BenchKeypad {
                kind: 31,
                ..BenchKeypad::default()
            },
            Ok(Keypad::Gap(code)) => BenchKeypad {
                kind: 32,
                code,
                ..BenchKeypad::default()
            },
            Ok(Keypad::Overlap(code, first, second)) => BenchKeypad {
                refusal: 0,
                kind: 33,
                code,
                first,
                second,
            },
            Err(cause) => BenchKeypad {
                refusal: u8::from(cause),
                ..BenchKeypad::default()
            },
        }
    }
}

// Whether just one rule of a keypad's table matches each code: good, or the smallest bad code with its gap or overlap;
// or the number of the refusal.
#[unsafe(no_mangle)]
pub extern "C" fn bench_keypad(sheet: Sheet, table: &[u8]) -> BenchKeypad
    ensures { result ≡ keyed_flat (keyed (keypad_of sheet table.now)) }
{
    keypad::check(sheet, table).into()
}

// The answer of a lookup in a keypad's table in numbers: those of a check, and the event.
#[repr(C)]
#[derive(Clone, Copy, Default)]
pub struct BenchFound {
    pub refusal: u8,
    pub kind: u8,
    pub event: u8,
    pub code: u8,
    pub first: u8,
    pub second: u8,
}

impl From<Result<Found, Refusal>> for BenchFound {
    ghost from_gives = { λ a b. b ≡ looked_flat (looked (numbered a)) };

    #[tactic(auto, unfolding(crate::specs::Flat::looked_flat, keypad_spec::specs::Numbers::looked))]
    fn from(answer: Result<Found, Refusal>) -> BenchFound {
        match answer {
            Ok(Found::Event(event)) => BenchFound {
                kind: 34,
                event,
                ..BenchFound::default()
            },
            Ok(Found::Gap(code)) => BenchFound {
                kind: 32,
                code,
                ..BenchFound::default()
            },
            Ok(Found::Overlap(code, first, second)) => BenchFound {
                kind: 33,
                code,
                first,
                second,
                ..BenchFound::default()
            },
            Err(cause) => BenchFound {
                refusal: u8::from(cause),
                ..BenchFound::default()
            },
        }
    }
}

// The event that a good table turns the code into; or the gap, the overlap or the refusal that a check of the table
// answers.
#[unsafe(no_mangle)]
pub extern "C" fn bench_find(sheet: Sheet, table: &[u8], code: u8) -> BenchFound
    ensures { result ≡ looked_flat (looked (found_of sheet table.now code)) }
{
    keypad::find(sheet, table, code).into()
}

// ---- walks

// The answer of a walk: the refusal, 0 for none, and the walk's length.
#[repr(C)]
#[derive(Clone, Copy, Default)]
pub struct BenchWalked {
    pub refusal: u8,
    pub length: u16,
}

impl From<Result<u16, Refusal>> for BenchWalked {
    ghost from_gives = { λ a b. b ≡ walked_flat (walked_numbers (numbered a)) };

    #[tactic(auto, unfolding(crate::specs::Flat::walked_flat, load_spec::specs::Calls::walked_numbers))]
    fn from(answer: Result<u16, Refusal>) -> BenchWalked {
        match answer {
            Ok(length) => BenchWalked { refusal: 0, length },
            Err(cause) => BenchWalked {
                refusal: u8::from(cause),
                ..BenchWalked::default()
            },
        }
    }
}

// Writes the walk of a seed, of at most `wish` events, to the front of the lent list and answers its length; or the
// number of the refusal, and the list is as it was.
#[unsafe(no_mangle)]
pub extern "C" fn bench_walk(sheet: Sheet, seed: u32, wish: u16, out: &mut [u8]) -> BenchWalked
    ensures { (result ≡ walked_flat (walked_numbers (walked_of sheet seed wish out.old)))
        × (out.new ≡ walk_after sheet seed wish out.old) }
{
    load::walk(sheet, seed, wish, out).into()
}

// ---- the bound

// The answer of the call that writes a pair of sheets: the refusal, 0 for none, and the lengths of the two in bytes.
#[repr(C)]
#[derive(Clone, Copy, Default)]
pub struct BenchBounded {
    pub refusal: u8,
    pub reference: u16,
    pub device: u16,
}

impl From<Result<Lengths, Refusal>> for BenchBounded {
    ghost from_gives = { λ a b. b ≡ bounded_flat (bound_numbers (numbered a)) };

    #[tactic(auto, unfolding(crate::specs::Flat::bounded_flat, bound_spec::specs::Calls::bound_numbers))]
    fn from(answer: Result<Lengths, Refusal>) -> BenchBounded {
        match answer {
            Ok(lengths) => BenchBounded {
                refusal: 0,
                reference: lengths.reference,
                device: lengths.device,
            },
            Err(cause) => BenchBounded {
                refusal: u8::from(cause),
                ..BenchBounded::default()
            },
        }
    }
}

// Writes the reference of `p` nodes and the device of `q`, whose first failing test is number p q - 1, each to the
// front of its lent list, and answers their lengths; or the number of the refusal, and both lists are as they were.
#[unsafe(no_mangle)]
pub extern "C" fn bench_bound(p: u8, q: u8, reference: &mut [u8], device: &mut [u8]) -> BenchBounded
    ensures { (result ≡ bounded_flat (bound_numbers (bound_of p q reference.old device.old)))
        × (reference.new ≡ reference_after p q reference.old device.old)
        × (device.new ≡ device_after p q reference.old device.old) }
{
    bound::write_pair(p, q, reference, device).into()
}
