// What the counter says: answers, refusals and faults in words, with their numbers.
#![tactic(auto)]

mod beyond;
pub mod saying;
pub mod wording;

// The byte between two words: no word can hold it.
pub const GAP: u8 = 0;
