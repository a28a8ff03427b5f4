// What a host links, as a library that proved callers take: every function under the names of include/coe_desk.h. Each judges its own input.
// linked_c exports them. A module for the request writers, the reply judge, the desk and the reads.
#![tactic(auto)]

pub mod frames;
pub mod judging;
pub mod lending;
pub mod reading;
