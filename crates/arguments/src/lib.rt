// The words that a program was started with, as bytes over lent lists, with no memory of their own. Word 0 is the
// program's own name. A word need not be text.
#![tactic(auto)]

ghost use Rattle.io.specs.Counts.{IsPrefixLen};

use std::env::{Env, FillError};

// Puts word i over the front of a list and answers how many bytes it has: none where there is no such word, or where it
// is longer than the list.
pub fn put_word(rt: &impl Env, i: usize, list: &mut [u8]) -> usize
    ensures { IsPrefixLen result list.new }
{
    rt.arg(i, list).unwrap_or(0)
}

// Whether there is a word i. No byte of it is copied.
fn has_word(rt: &impl Env, i: usize) -> bool {
    !matches!(rt.arg(i, &mut []), Err(FillError::NotPresent))
}

// How many words there are, the program's own name among them.
pub fn word_count(rt: &impl Env) -> usize {
    (0..usize::MAX)
        .find(|i| !has_word(rt, *i))
        .unwrap_or(usize::MAX)
}
