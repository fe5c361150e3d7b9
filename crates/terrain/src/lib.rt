// What hosts in other languages call, by the exports of crate terrain_c: the engine's calls, on a state of 32-bit words that the host owns, and the library's leaves, format, geometry and parts. Nothing here keeps a
// state or allocates; each bit pattern has an answer. include/terrain.h declares it for C.
//
// `host` has the engine's calls, on the words of crate `words`; `records` what crosses by value; `leaves`, `format`, `figures`, `transect`, `page` and `write` are thin calls of the library's own, `parts` and `roads` the cache's, the matcher's and predict's.
#![tactic(auto)]

pub mod figures;
pub mod format;
pub mod host;
pub mod leaves;
pub mod page;
pub mod parts;
pub mod records;
pub mod roads;
pub mod transect;
pub mod write;
