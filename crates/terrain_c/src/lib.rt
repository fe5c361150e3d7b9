#![tactic(auto)]

// What hosts in other languages link: each function of crate `terrain` under its own name, by C's calling convention, with the same clauses. include/terrain.h declares them;
// `.ci/archive` makes target/staticlib/libterrain.a of it.
mod figures;
mod format;
mod host;
mod leaves;
mod page;
mod parts;
mod roads;
mod transect;
mod write;
