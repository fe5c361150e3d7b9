// The way that is taken at a junction.
ghost use Rattle.std.specs.Prelude.{◌≡◌};
ghost use Rattle.predict.specs.Decide as Decide;

use crate::choose::Picked;
use crate::{Choices, Decision, End, Ending};

// The road stops here.
fn stop(p: Picked, end: End, confidence: f32) -> Decision
    ensures { result ≡ Decide.stop p end confidence }
{
    let best = p.best;
    let way = best.way;
    Decision {
        ending: Ending::Stops(end),
        way,
        confidence,
    }
}

// No way on: off the map, or a dead end.
fn no_way(p: Picked, blocked: bool, confidence: f32) -> Decision
    ensures { result ≡ Decide.no_way p blocked confidence }
{
    if blocked {
        return stop(p, End::MapEdge, confidence);
    }
    stop(p, End::DeadEnd, confidence)
}

// How much of the confidence a decision leaves, by how clear it was.
fn lowered(confidence: f32, margin: f32) -> f32
    ensures { result ≡ Decide.lowered confidence margin }
{
    confidence * (0.85 + 0.15 * num::order::min(margin / 4.0, 1.0))
}

fn go(p: Picked, confidence: f32) -> Decision
    ensures { result ≡ Decide.go p confidence }
{
    let best = p.best;
    let way = best.way;
    Decision {
        ending: Ending::Going,
        way,
        confidence,
    }
}

// A choice between two ways or more.
fn choice(p: Picked, confidence: f32) -> Decision
    ensures { result ≡ Decide.choice p confidence }
{
    let best = p.best;
    let margin = p.second - best.cost;
    if margin < 1.0 {
        return stop(p, End::Fork, confidence);
    }
    let left = lowered(confidence, margin);
    if left < 0.3 {
        return stop(p, End::Uncertain, left);
    }
    go(p, left)
}

// The best way on, if there is one and it is clear enough.
pub(crate) fn decide(c: Choices, blocked: bool, confidence: f32) -> Decision
    ensures { result ≡ Decide.decide c blocked confidence }
{
    let p = crate::choose::pick(c);
    if !p.any {
        return no_way(p, blocked, confidence);
    }
    if num::order::is_finite(p.second) {
        return choice(p, confidence);
    }
    go(p, confidence)
}
