// A host in Rattle: a caller of each function that linked_c exports, as linked has it. Each has its contract from that function's contract
// alone, and says it in document 01's words, so that whoever changes a rule and its contract alike, or says less of a function, is refused
// here.
#![tactic(auto)]

pub mod frames;
pub mod judging;
pub mod lending;
pub mod reading;
