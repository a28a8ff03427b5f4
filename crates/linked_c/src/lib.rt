// The archive that a C or Rust host links: the functions of linked, each exported under the name that include/coe_desk.h has for it. An
// archive exports the functions of its own crate alone, and no crate can call it: so each of these states linked's clauses again, word for
// word, and calls linked's function.
#![tactic(auto)]

pub mod frames;
pub mod judging;
pub mod lending;
pub mod reading;
