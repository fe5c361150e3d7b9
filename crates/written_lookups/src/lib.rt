#![tactic(auto)]

// Looking up directly in a pack that was written: the promise (specs/) and its proof (proofs/), each the contract of a function that does nothing.

ghost use Rattle.written_lookups.specs.Written as Written;

// No tile is found by a key that none was given for.
pub fn finds_no_other()
    ensures { Written.FindsNoOther }
{}

// Every tile given is found by its key, by a cache of pages enough for it.
pub fn finds_each()
    ensures { Written.FindsEach }
{}
