// Why a call is refused (01, "Who can cause a refusal"; 02): each cause is a case with the number that C and the
// programs tell.
#![tactic(auto)]

ghost use Rattle.std.specs.Prelude.{◌≡◌};
ghost use Rattle.refusals.specs.Numbers.{number};

// The cause of a refusal.
#[derive(Clone, Copy, Debug, PartialEq, Eq)]
pub enum Refusal {
    // a sheet of fewer than 7 bytes, or its length field is wrong
    Length = 1,
    // a version that is neither 1 nor 2
    Version = 2,
    // an E that is not 1 to 12, or an N that is not 1 to 32
    Ranges = 3,
    // the bytes end too early, or some remain
    Bytes = 4,
    // a node with no acceptance, or more than 16
    Count = 5,
    // a successor that is no node
    Successor = 6,
    // a broken rule of acceptances, or of unused places
    Acceptances = 7,
    // a node that node 0 does not reach
    Unreached = 8,
    // a node, or a run's record, that does not fit the sheet
    Node = 9,
    // a list that is too short for the answer
    ShortList = 10,
    // two sheets with another E
    Events = 11,
    // a work list that is too short
    WorkList = 12,
    // a trace list that is too short
    TraceList = 13,
    // a test's number above 1,023
    Test = 14,
    // an event that is not on the sheet
    Event = 15,
    // a run that has ended
    Ended = 16,
    // an event that was not offered
    NotOffered = 17,
    // a code that two events of a sheet have
    CodeTwice = 18,
    // an event with another code on each of two sheets
    CodesDiffer = 19,
    // a length of scripts above 16
    ScriptLength = 20,
    // a keypad's table that is not 1 to 64 whole rules
    Table = 21,
    // a rule's value with a bit outside its mask
    RuleValue = 22,
    // a rule's event that is not on the sheet
    RuleEvent = 23,
    // a seed of 0
    Seed = 27,
    // a wished length above 4,096, or above the places of the list
    Wish = 28,
    // a set of nodes that is empty, or names one that is not on the sheet
    Nodes = 29,
    // a number of nodes that is not 1 to 32
    BoundNodes = 30,
    // a list that is too short for a sheet of the pair
    BoundList = 31,
}

impl From<Refusal> for u8 {
    ghost from_gives = { λ cause n. n ≡ number cause };

    fn from(cause: Refusal) -> u8 {
        cause as u8
    }
}
