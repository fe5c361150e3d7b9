// The road ahead that is published.
ghost use Rattle.std.specs.Prelude.{◌≡◌};
ghost use Rattle.engine.specs.Publish as Publish;

use crate::Ahead;
use predict::{BEHIND_SAMPLES, End, MAX_SAMPLES, Prediction};

// Nothing published, with the generation given.
pub(crate) fn nothing_ahead(generation: u32) -> Ahead
    ensures { result ≡ Publish.nothing_ahead generation }
{
    let samples = [0i16; MAX_SAMPLES];
    let behind = [0i16; BEHIND_SAMPLES];
    Ahead {
        generation,
        at_ms: 0,
        matched: None,
        start_z_dm: 0,
        samples,
        len: 0,
        behind,
        behind_len: 0,
        behind_m: 0.0,
        end: End::Uncertain,
        end_m: 0.0,
        confidence: 0,
    }
}

// Everything forgotten, as a new result.
pub(crate) fn forgotten(a: Ahead) -> Ahead
    ensures { result ≡ Publish.forgotten a }
{
    nothing_ahead(std::num::wrapping_add_u32(a.generation, 1))
}

// Without a match there is no road: the heights stay where they stand, and count no more.
pub(crate) fn without_match(a: Ahead, at_ms: u64, end: End) -> Ahead
    ensures { result ≡ Publish.without_match a at_ms end }
{
    let samples = a.samples;
    let behind = a.behind;
    Ahead {
        generation: std::num::wrapping_add_u32(a.generation, 1),
        at_ms,
        matched: None,
        start_z_dm: 0,
        samples,
        len: 0,
        behind,
        behind_len: 0,
        behind_m: 0.0,
        end,
        end_m: 0.0,
        confidence: 0,
    }
}

// The road of a match, with the heights that stand there.
pub(crate) fn with_match(a: Ahead, at_ms: u64, found: matcher::Matched, p: Prediction) -> Ahead
    ensures { result ≡ Publish.with_match a at_ms found p }
{
    let samples = a.samples;
    let behind = a.behind;
    let end = p.end;
    Ahead {
        generation: std::num::wrapping_add_u32(a.generation, 1),
        at_ms,
        matched: Some(found),
        start_z_dm: found.z_dm,
        samples,
        len: p.len,
        behind,
        behind_len: p.behind,
        behind_m: p.behind_m,
        end,
        end_m: p.end_m,
        confidence: p.confidence,
    }
}
