// The fixes, and the heading of travel that they give.
ghost use Rattle.std.specs.Prelude.{◌≡◌};
ghost use Rattle.engine.specs.Fixes as Fixes;

use crate::{Fix, Places, Sight};
use geo::{Metres, Point};
use matcher::Heading;

// No fix yet.
pub(crate) fn nothing_seen() -> Sight
    ensures { result ≡ Fixes.nothing_seen }
{
    let none = Point { lat: 0, lon: 0 };
    let v = [none; 16];
    let history = Places { v, len: 0 };
    Sight {
        fix: None,
        history,
        heading: Heading::Nothing,
        heading_at: 0,
    }
}

// Whether a fix is at the place of the newest one.
pub(crate) fn is_same_place(last: Option<Fix>, fix: Fix) -> bool
    ensures { result ≡ Fixes.is_same_place last fix }
{
    match last {
        None => false,
        Some(f) => {
            if f.lat == fix.lat {
                return f.lon == fix.lon;
            }
            false
        }
    }
}

fn place_at(h: Places, i: usize) -> Point
    ensures { result ≡ Fixes.place_at h i }
{
    if i < 16 {
        return h.v[i];
    }
    Point { lat: 0, lon: 0 }
}

// Whether the rider has moved 15 m or more since the place number `i`.
fn is_move(h: Places, i: usize, here: Point, lon_um: u32) -> bool
    ensures { result ≡ Fixes.is_move h here lon_um i }
{
    let old = place_at(h, i);
    let m = geo::flat::metres(here, old, lon_um);
    geo::flat::length(m.east, m.north) >= 15.0
}

// The newest place that lies 15 m or more away.
fn moved_from(h: Places, here: Point, lon_um: u32) -> Option<usize>
    ensures { result ≡ Fixes.moved_from h here lon_um }
{
    let mut i = h.len;
    while 0 < i {
        i -= 1;
        if is_move(h, i, here, lon_um) {
            return Some(i);
        }
    }
    None
}

// Each place takes the next one's, and the last keeps its own.
fn shift(h: Places) -> Places
    ensures { result ≡ Fixes.shifted h }
{
    let mut d = h;
    for i in 0..15 {
        let p = d.v[i + 1];
        d.v[i] = p;
    }
    d
}

// One place more; past the sixteenth the oldest goes.
fn push(h: Places, here: Point) -> Places
    ensures { result ≡ Fixes.push h here }
{
    if h.len < 16 {
        let mut d = h;
        let at = d.len;
        d.v[at] = here;
        d.len = at + 1;
        return d;
    }
    let mut d = shift(h);
    d.v[15] = here;
    d.len = 16;
    d
}

// A heading with its time.
#[derive(Clone, Copy)]
pub(crate) struct Course {
    pub heading: Heading,
    pub at_ms: u64,
}

// The heading from the newest place that is far enough, or the one before.
fn course_of(s: Sight, fix: Fix) -> Course
    ensures { result ≡ Fixes.course_of s fix }
{
    let here = Point {
        lat: fix.lat,
        lon: fix.lon,
    };
    let lon_um = angle::lon_scale_um(fix.lat);
    let history = s.history;
    let heading = s.heading;
    match moved_from(history, here, lon_um) {
        None => Course {
            heading,
            at_ms: s.heading_at,
        },
        Some(i) => {
            let old = place_at(history, i);
            let m = geo::flat::metres(here, old, lon_um);
            Course {
                heading: Heading::Degrees(geo::flat::bearing(m.east, m.north)),
                at_ms: fix.at_ms,
            }
        }
    }
}

// A heading that is older than two minutes is forgotten.
fn fresh(c: Course, now_ms: u64) -> Heading
    ensures { result ≡ Fixes.fresh c now_ms }
{
    let heading = c.heading;
    if c.at_ms <= now_ms {
        if 120000 < now_ms - c.at_ms {
            return Heading::Nothing;
        }
    }
    heading
}

// A new fix at another place.
pub(crate) fn seen(s: Sight, fix: Fix) -> Sight
    ensures { result ≡ Fixes.seen s fix }
{
    let here = Point {
        lat: fix.lat,
        lon: fix.lon,
    };
    let course = course_of(s, fix);
    let old = s.history;
    let history = push(old, here);
    let heading = fresh(course, fix.at_ms);
    Sight {
        fix: Some(fix),
        history,
        heading,
        heading_at: course.at_ms,
    }
}

// The fixes stopped: no fix, no history, no heading. The places stay where they stand, and count no more.
pub(crate) fn lost(s: Sight) -> Sight
    ensures { result ≡ Fixes.lost s }
{
    let old = s.history;
    let mut history = old;
    history.len = 0;
    Sight {
        fix: None,
        history,
        heading: Heading::Nothing,
        heading_at: s.heading_at,
    }
}
