// Numbers: whole numbers to single floats and back, the float helpers that Rust has as methods, and the square root.
// Every function is total: each bit pattern has an answer, not-a-number and the infinities too.
#![tactic(auto)]

pub mod cast;
pub mod convert;
pub mod order;
pub mod root;
