// Reads of a finished payload: typed values, the object list item by item and whole, and the five quantities. Each takes any bytes and
// any position, and refuses as undecodable what cannot be read.
#![tactic(auto)]

pub mod list;
pub mod quantities;
pub mod reader;
pub mod typed;
pub mod whole;
