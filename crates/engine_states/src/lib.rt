#![tactic(auto)]

// No public call of the engine makes a state that number 12 names, and what its first step does: theorems (proofs/). Each claim of specs/Closed is the contract of a function that does nothing.

ghost use Rattle.engine_states.specs.Closed as Closed;

// No public call makes a state that 12 names out of one that it does not, over an arena of any length.
pub fn closed()
    ensures { Closed.Closed }
{}

// A new engine has the 96 slots that its array has, and each call keeps them.
pub fn sizes()
    ensures { Closed.Sizes }
{}

// The first step of every new engine asks for the header, and has that read open.
pub fn first_steps()
    ensures { Closed.FirstSteps }
{}

// A refused call leaves engine and arena as they were.
pub fn refused_calls()
    ensures { Closed.RefusedCalls }
{}

// Of an engine that 12 accepts: a fix or the loss of fixes before a delivery is the same after it; where a step opens a fetch, a reset after it is the reset before it, and a step more is the same step.
pub fn between()
    ensures { Closed.Between }
{}
