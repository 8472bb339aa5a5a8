// Numbers that the layers above share: two-word numbers, optional deadlines, big-endian fields of a byte slice, and the
// words of a register pair.
#![tactic(auto)]

pub mod deadline;
pub mod fields;
pub mod number;
pub mod words;
