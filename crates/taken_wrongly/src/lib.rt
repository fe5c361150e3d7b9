#![tactic(auto)]

// What document 01 says is "Easily taken wrongly", and what its programs that must fail get wrong, as cases of the definitions. specs/Cases.antt states them, proofs/Proved.antt proves
// them. Each function of the code equals its definition, so a program that takes one of them wrongly can't meet its contract. A function that does nothing has the cases as its contract.

ghost use Rattle.taken_wrongly.specs.Cases as Cases;

// Every case holds.
pub fn cases()
    ensures { Cases.Cases }
{}
