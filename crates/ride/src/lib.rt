// What the programs `drive` and `map` share: the fixes of a drive, read from its text, and the host's side of an engine, which answers its fetches from
// the pack's file. Like a program's own functions these are proved safe and ending.
#![tactic(auto)]

pub mod fixes;
pub mod host;
