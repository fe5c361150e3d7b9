// An elevation every 20 m of road: `Sampler` of the Rust's predict.rs, with the mark and the heights lent side by side.
ghost use Rattle.std.specs.Prelude.{◌-◌, ◌≡◌, Float, length};
ghost use Rattle.predict.specs.Samples as Samples;

use crate::Mark;

// The distance of a sample.
pub(crate) fn sample_at(i: usize) -> f32
    ensures { result ≡ Samples.sample_at i }
{
    num::convert::f32_of_usize(i) * 20.0
}

// A height held to 16 bits, which the cast does by itself (`held_is`).
fn held(value: f32) -> i16
    ensures { result ≡ Samples.held value }
{
    num::cast::i16_of_f32(value)
}

// The samples on the straight line from one road point to the next, `span` metres on.
fn sloped(
    first: usize,
    heights: &mut [i16],
    distance: f32,
    base: f32,
    rise: f32,
    from: f32,
    span: f32,
) -> usize
    ensures value { result ≡ (Samples.filled (Samples.slope base rise from span) (length heights.old - first) distance first heights.old).len }
    ensures heights_after { heights.new ≡ (Samples.filled (Samples.slope base rise from span) (length heights.old - first) distance first heights.old).heights }
{
    let mut len = first;
    while len < heights.len() {
        let at = sample_at(len);
        if at > distance {
            return len;
        }
        heights[len] = held(base + rise * (at - from) / span);
        len += 1;
    }
    len
}

// The samples up to a road point that lies no further on than the last one: all have its height.
fn level(first: usize, heights: &mut [i16], distance: f32, height: i16) -> usize
    ensures value { result ≡ (Samples.filled (λ (_ : Float). height) (length heights.old - first) distance first heights.old).len }
    ensures heights_after { heights.new ≡ (Samples.filled (λ (_ : Float). height) (length heights.old - first) distance first heights.old).heights }
{
    let mut len = first;
    while len < heights.len() {
        let at = sample_at(len);
        if at > distance {
            return len;
        }
        heights[len] = height;
        len += 1;
    }
    len
}

// The samples up to a road point written, as far as there is room, and the mark that stands at it: `push` on values.
fn pushed(m: Mark, heights: &mut [i16], distance: f32, z: i32) -> Mark
    ensures value { result ≡ (Samples.pushed m heights.old distance z).mark }
    ensures heights_after { heights.new ≡ (Samples.pushed m heights.old distance z).heights }
{
    let span = distance - m.distance;
    if span > 0.0 {
        let rise = num::convert::f32_of_i64((z as i64) - (m.z as i64));
        let base = num::convert::f32_of_i32(m.z);
        let len = sloped(m.len, heights, distance, base, rise, m.distance, span);
        return Mark { len, distance, z };
    }
    let len = level(m.len, heights, distance, held(num::convert::f32_of_i32(z)));
    Mark { len, distance, z }
}

// The samples up to a road point written, as far as there is room; the mark is moved on to it.
pub(crate) fn push(mark: &mut Mark, heights: &mut [i16], distance: f32, z: i32)
    ensures mark_after { mark.new ≡ (Samples.pushed mark.old heights.old distance z).mark }
    ensures heights_after { heights.new ≡ (Samples.pushed mark.old heights.old distance z).heights }
{
    *mark = pushed(*mark, heights, distance, z);
}

// One push on a mark that goes by value, for callers that keep it in their own state: it is put into a local and lent.
pub(crate) fn push_on(m: Mark, heights: &mut [i16], distance: f32, z: i32) -> Mark
    ensures value { result ≡ (Samples.pushed m heights.old distance z).mark }
    ensures heights_after { heights.new ≡ (Samples.pushed m heights.old distance z).heights }
{
    let mut mark = m;
    push(&mut mark, heights, distance, z);
    mark
}

// The same where few points have a sample before them: one that has none costs a test, and its mark does not go through memory.
pub(crate) fn push_due(m: Mark, heights: &mut [i16], distance: f32, z: i32) -> Mark
    ensures value { result ≡ (Samples.pushed m heights.old distance z).mark }
    ensures heights_after { heights.new ≡ (Samples.pushed m heights.old distance z).heights }
{
    let len = m.len;
    if sample_at(len) > distance {
        return Mark { len, distance, z };
    }
    push_on(m, heights, distance, z)
}
