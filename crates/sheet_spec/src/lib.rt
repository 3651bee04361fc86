// What a sheet is (01, "A sheet"): a dialogue graph, that is a normalised transition graph with the minimal acceptances
// of each node, as the bench keeps it. The crate has the types; its specs say what bytes spell such a sheet and which
// of them are accepted. It has no function.
#![tactic(auto)]

// The row of one node: its successor on each event, 255 for none; its minimal acceptances, as sets of events; how many
// of these it has (01's C). Unused successors hold 255, unused sets 0, and the C of an unused node is 0.
#[repr(C)]
#[derive(Clone, Copy)]
pub struct Row {
    pub succ: [u8; 12],
    pub sets: [u16; 16],
    pub c: u8,
}

// A kept sheet: a row for each of 32 nodes, the number of events (01's E), the number of nodes in use (01's N), and the
// catalogue code of each event (02, K1). Unused codes hold 0.
#[repr(C)]
#[derive(Clone, Copy)]
pub struct Sheet {
    pub rows: [Row; 32],
    pub e: u8,
    pub n: u8,
    pub codes: [u16; 12],
}

// What reading answers in C: the number of the refusal, 0 for none, and the sheet, all 0 where it is refused.
#[repr(C)]
#[derive(Clone, Copy)]
pub struct ReadSheet {
    pub refusal: u8,
    pub sheet: Sheet,
}
