// The twelve choices of a junction, and the best and the second of them.
ghost use Rattle.std.specs.Prelude.{◌≡◌};
ghost use Rattle.predict.specs.Choose as Choose;

use crate::{Choice, Choices, Way};
use pack::TileKey;

fn no_choice() -> Choice
    ensures { result ≡ Choose.no_choice }
{
    let way = Way {
        tile: TileKey { row: 0, col: 0 },
        edge: 0,
        forward: false,
    };
    Choice { way, cost: 0.0 }
}

pub(crate) fn no_choices() -> Choices
    ensures { result ≡ Choose.no_choices }
{
    let c = no_choice();
    let v = [c; 12];
    Choices { v, len: 0 }
}

// The best so far, if there is one, and the cost of the second, infinite where there is none.
#[derive(Clone, Copy)]
pub struct Picked {
    pub any: bool,
    pub best: Choice,
    pub second: f32,
}

// One choice more: of equals the first is the best.
fn pick_step(p: Picked, n: usize, i: usize, c: Choice) -> Picked
    ensures { result ≡ Choose.pick_step p n i c }
{
    if n <= i {
        return p;
    }
    let best = p.best;
    if !p.any {
        return Picked {
            any: true,
            best: c,
            second: p.second,
        };
    }
    if c.cost >= best.cost {
        return Picked {
            any: true,
            best,
            second: num::order::min(p.second, c.cost),
        };
    }
    Picked {
        any: true,
        best: c,
        second: num::order::min(p.second, best.cost),
    }
}

// The best and the second of a junction's choices.
pub(crate) fn pick(c: Choices) -> Picked
    ensures { result ≡ Choose.pick c }
{
    let n = c.len;
    let none = no_choice();
    let mut p = Picked {
        any: false,
        best: none,
        second: 1.0 / 0.0,
    };
    for i in 0..12 {
        let choice = c.v[i];
        p = pick_step(p, n, i, choice);
    }
    p
}
