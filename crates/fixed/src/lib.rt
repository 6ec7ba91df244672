// A level line in fixed point. The words of a line are worked out once: what divides all its numbers is divided out, it is lifted above
// zero, and each number becomes parts of 2^(32 + shift), in two words. A sample is then six products, a carry and a shift, and is exactly
// the line's.
#![tactic(auto)]

pub mod by_words;
mod division;
mod lift;
pub mod reduce;
pub mod words;
