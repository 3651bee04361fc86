// The text of the program `compare` (01, "The program `compare`"). The crate has the type that holds such a text; its
// specs say which text an input gives. It has no function.
#![tactic(auto)]

// A text: its bytes from the front, 0 after them, and how many they are.
#[derive(Clone, Copy)]
pub struct Text {
    pub bytes: [u8; 4096],
    pub len: usize,
}
