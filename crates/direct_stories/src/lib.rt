#![tactic(auto)]

// Two computed lists with one story, for demand 3's corollary: specs/Stories has them, proofs/Lists their proofs, and a function that does nothing has them as its contract.

ghost use Rattle.direct_stories.specs.Stories as Stories;

// The premises of `all_stories` can hold of two lists that differ.
pub fn not_empty()
    ensures { Stories.Stories }
{}
