// The lines that a job prints, written into a lent buffer. Each call answers the length of its text; where that is more than the buffer's, what fits is there.
// Kept: a length as the answer of a line's call: that of its whole text, which may be more than the buffer holds, and a slice of the buffer could not tell it.
#![tactic(auto)]

pub mod lines;
pub mod text;
