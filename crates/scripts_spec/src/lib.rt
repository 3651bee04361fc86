// How many key scripts of a length go where (02, K2). The crate has the counts of an answer, and what C is told of
// one; its specs say what a script is, what becomes of it on two sheets, and how many go each way. It has no function.
#![tactic(auto)]

// What counting answers: how many scripts both sheets walk to the end; how many stop first at an event that the device
// cannot do; and how many at one that the device can do and the reference cannot.
#[derive(Clone, Copy)]
pub struct Counts {
    pub walked: u64,
    pub device: u64,
    pub reference: u64,
}

// The same for C: the number of the refusal, 0 for none; how many scripts both sheets walk to the end; how many
// stop first at an event that the device cannot do; and how many at one that the device can do and the reference
// cannot. If it is refused, the three are 0.
#[repr(C)]
#[derive(Clone, Copy)]
pub struct Scripts {
    pub refusal: u8,
    pub walked: u64,
    pub device: u64,
    pub reference: u64,
}
