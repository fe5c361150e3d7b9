#![tactic(auto)]

// The cache's theorem over every list of calls: definitions (specs/) and proofs (proofs/). Each claim is the contract of a function that does nothing.

ghost use Rattle.cache_lists.specs.Claims as Claims;

// After every list of calls from a fresh cache, whatever is delivered or given: runs lie apart, what is handed out passes, one read at most, no byte but a load's is written.
pub fn always_safe()
    ensures { Claims.AlwaysSafe }
{}

// After every list the unfinished load is no longer than a tile may be.
pub fn always_short()
    ensures { Claims.AlwaysShort }
{}

// Of one pack, whichever reads fail and whatever is evicted: what `get` answers is what the direct lookup gives.
pub fn always_same()
    ensures { Claims.AlwaysSame }
{}

// Of one pack no call is refused with 12 while the arena holds its pages.
pub fn always_open()
    ensures { Claims.AlwaysOpen }
{}
