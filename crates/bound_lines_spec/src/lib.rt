// What the program `bound_pair` writes (02, K11): its lines, the bytes of its sheets, and both as functions of the
// three words that it is started with. The crate has the type of what is asked for; it has no function.
#![tactic(auto)]

// What the third word asks for, if it is one that the program knows.
#[derive(Clone, Copy)]
pub enum Asked {
    // the lines: nodes, bytes, the first failing test
    Lines,
    // the reference's bytes
    Reference,
    // the device's bytes
    Device,
}
