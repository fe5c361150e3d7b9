#![tactic(auto)]

// The marked bench lines of document 01 as one table about the definitions. specs/Lines.antt states it, proofs/Table.antt proves it, and a function that does nothing has it as its contract.

ghost use Rattle.bench.specs.Lines as Lines;

// Every bench line holds.
pub fn lines()
    ensures { Lines.Lines }
{}
