#![tactic(auto)]

// The refusals of every public function as one table about the definitions. specs/Refusals.antt states it, proofs/Table.antt proves it, and a function that does nothing has it as its contract.

ghost use Rattle.refusals.specs.Refusals as Refusals;

// Every line of the table holds.
pub fn lines()
    ensures { Refusals.Refusals }
{}
