#![tactic(auto)]

// A list of calls computed from the definitions, in which demand 3's premises hold and something is finished. specs/Witness states it, proofs/Witness proves it, and a function that does nothing has it as its contract.

ghost use Rattle.direct_witness.specs.Witness as Witness;

// The premises of `all_direct` can hold of a list in which something is finished.
pub fn not_empty()
    ensures { Witness.Witness }
{}
