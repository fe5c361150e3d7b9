// An engine's words, piece by piece, each put at its place.
ghost use Rattle.std.specs.Prelude.{◌≡◌, ◌+◌, ◌≤◌, [], ◌∷◌, length};
ghost use Rattle.num.specs.Cast.{bits32};
ghost use Rattle.words.specs.Put.{put, uses_in};
ghost use Rattle.words.specs.Words as Words;

use cache::{Aging, Cache, Loading, Pages, Part, Pending, Ring, Slot};
use engine::{Ahead, Due, Engine, Fix, Follower, Phase, Places, Shared, Sight};
use geo::Point;
use matcher::{Heading, Matched, Matcher};
use pack::{Header, TileKey};
use predict::End;
use tile::TileId;

// The words of one piece, at their place.
fn put(out: &mut [u32; crate::WORDS], at: usize, piece: &[u32])
    requires { (at + length piece.now ≤ 1150) × (length out.old ≡ 1150) }
    ensures out_after { out.new ≡ put at piece.now out.old }
    ensures out_len { length out.new ≡ 1150 }
{
    for i in 0..piece.len() {
        out[at + i] = piece[i];
    }
}

// One word, at its place.
pub(crate) fn put_word(out: &mut [u32; crate::WORDS], at: usize, n: u32)
    requires { (at + 1 ≤ 1150) × (length out.old ≡ 1150) }
    ensures out_after { out.new ≡ put at (n ∷ []) out.old }
    ensures out_len { length out.new ≡ 1150 }
{
    out[at] = n;
}

// ---- numbers

pub(crate) fn low(n: u64) -> u32
    ensures { result ≡ Words.low_word n }
{
    (n % 4294967296) as u32
}

pub(crate) fn high(n: u64) -> u32
    ensures { result ≡ Words.high_word n }
{
    (n / 4294967296) as u32
}

pub(crate) fn wide(n: u16) -> u32
    ensures { result ≡ n }
{
    n as u32
}

pub fn byte(n: u8) -> u32
    ensures { result ≡ n }
{
    n as u32
}

pub(crate) fn size(n: usize) -> u32
    ensures { result ≡ Words.low_word n }
{
    (n % 4294967296) as u32
}

pub(crate) fn bit(b: bool) -> u32
    ensures value { result ≡ Words.bit b }
    ensures upper_bound { result ≤ 1 }
{
    if b {
        return 1;
    }
    0
}

// A float's pattern; a not-a-number's is always the same.
pub fn pattern(x: f32) -> u32
    ensures { result ≡ Words.float_word x }
{
    if x != x {
        return 2143289344;
    }
    f32::to_bits(x)
}

pub(crate) fn of_key(key: TileKey) -> u32
    ensures { result ≡ Words.key_word key }
{
    (key.row as u32) * 65536 + (key.col as u32)
}

// Whether there is a key, and the key.
pub(crate) fn has(key: Option<TileKey>) -> u32
    ensures value { result ≡ Words.key_tag key }
    ensures upper_bound { result ≤ 1 }
{
    match key {
        None => 0,
        Some(_) => 1,
    }
}

pub(crate) fn held(key: Option<TileKey>) -> u32
    ensures { result ≡ Words.key_held key }
{
    match key {
        None => 0,
        Some(k) => of_key(k),
    }
}

// ---- the pack

pub(crate) fn phase(phase: Phase) -> u32
    ensures { result ≡ Words.phase_word phase }
{
    match phase {
        Phase::Unread => 0,
        Phase::Ready => 1,
        Phase::Failed => 2,
    }
}

pub(crate) fn header(h: Header) -> [u32; 13]
    ensures { result ≡ Words.header_words h }
{
    [
        h.tile,
        num::cast::u32_of_i32(h.south),
        num::cast::u32_of_i32(h.west),
        h.rows as u32,
        h.cols as u32,
        h.directory,
        h.data,
        h.total,
        h.tiles,
        low(h.created),
        high(h.created),
        h.attribution_offset,
        h.attribution_len,
    ]
}

pub(crate) fn put_header(h: Header, out: &mut [u32; crate::WORDS])
    requires { length out.old ≡ 1150 }
    ensures out_after { out.new ≡ put 2 (Words.header_words h) out.old }
    ensures out_len { length out.new ≡ 1150 }
{
    let ws = header(h);
    put(out, 2, &ws);
}

// ---- the cache

// A first page is 0, a page of the run from page h on h + 1.
fn part(part: Part) -> u32
    ensures value { result ≡ Words.part_word part }
    ensures upper_bound { result ≤ 256 }
{
    match part {
        Part::Head => 0,
        Part::Of(h) => (h as u32) + 1,
    }
}

pub(crate) fn slot(s: Slot) -> [u32; 3]
    ensures { result ≡ Words.slot_words s }
{
    let key = s.key;
    let own = s.part;
    [
        has(key) + 2 * bit(s.ready) + 4 * part(own),
        held(key),
        s.len as u32,
    ]
}

fn put_slots(g: Pages, out: &mut [u32; crate::WORDS])
    requires { length out.old ≡ 1150 }
    ensures out_after { out.new ≡ put 15 (Words.slots_words g.slots) out.old }
    ensures out_len { length out.new ≡ 1150 }
{
    for i in 0..cache::MAX_PAGES {
        let s = slot(g.slots[i]);
        put(out, 15 + 3 * i, &s);
    }
}

fn put_used(used: &[u32; cache::MAX_PAGES], out: &mut [u32; crate::WORDS])
    requires { length out.old ≡ 1150 }
    ensures out_after { out.new ≡ put 303 (Words.used_words used.now) out.old }
    ensures out_len { length out.new ≡ 1150 }
{
    for i in 0..cache::MAX_PAGES {
        let age = [used[i]];
        put(out, 303 + i, &age);
    }
}

// What lookups change: when each page was last used, and the clock.
pub(crate) fn put_uses(a: Aging, out: &mut [u32; crate::WORDS])
    requires { length out.old ≡ 1150 }
    ensures out_after { out.new ≡ uses_in a out.old }
    ensures out_len { length out.new ≡ 1150 }
{
    put_used(&a.used, out);
    put_word(out, 400, a.clock);
}

fn put_pages(g: Pages, out: &mut [u32; crate::WORDS])
    requires { length out.old ≡ 1150 }
    ensures out_after { out.new ≡ put 15 (Words.pages_words g) out.old }
    ensures out_len { length out.new ≡ 1150 }
{
    put_slots(g, out);
    put_used(&g.used, out);
    let counts = [size(g.count), g.clock];
    put(out, 399, &counts);
}

fn put_keys(ring: Ring, out: &mut [u32; crate::WORDS])
    requires { length out.old ≡ 1150 }
    ensures out_after { out.new ≡ put 401 (Words.keys_words ring.keys) out.old }
    ensures out_len { length out.new ≡ 1150 }
{
    for i in 0..cache::MISSING {
        let key = ring.keys[i];
        let k = [has(key), held(key)];
        put(out, 401 + 2 * i, &k);
    }
}

fn put_ring(ring: Ring, out: &mut [u32; crate::WORDS])
    requires { length out.old ≡ 1150 }
    ensures out_after { out.new ≡ put 401 (Words.ring_words ring) out.old }
    ensures out_len { length out.new ≡ 1150 }
{
    put_keys(ring, out);
    let next = [size(ring.next)];
    put(out, 529, &next);
}

pub(crate) fn loading(loading: Option<Loading>) -> [u32; 6]
    ensures { result ≡ Words.loading_words loading }
{
    match loading {
        None => [0, 0, 0, 0, 0, 0],
        Some(l) => {
            let key = l.key;
            [1, of_key(key), size(l.slot), l.offset, l.len, l.done]
        }
    }
}

pub(crate) fn pending(pending: Pending) -> [u32; 2]
    ensures { result ≡ Words.pending_words pending }
{
    match pending {
        Pending::Nothing => [0, 0],
        Pending::Header => [1, 0],
        Pending::Entry(key) => [2, of_key(key)],
        Pending::Chunk => [3, 0],
    }
}

pub(crate) fn put_loading(l: Option<Loading>, out: &mut [u32; crate::WORDS])
    requires { length out.old ≡ 1150 }
    ensures out_after { out.new ≡ put 530 (Words.loading_words l) out.old }
    ensures out_len { length out.new ≡ 1150 }
{
    let ws = loading(l);
    put(out, 530, &ws);
}

pub(crate) fn put_pending(p: Pending, out: &mut [u32; crate::WORDS])
    requires { length out.old ≡ 1150 }
    ensures out_after { out.new ≡ put 536 (Words.pending_words p) out.old }
    ensures out_len { length out.new ≡ 1150 }
{
    let ws = pending(p);
    put(out, 536, &ws);
}

pub(crate) fn put_cache(c: Cache, out: &mut [u32; crate::WORDS])
    requires { length out.old ≡ 1150 }
    ensures out_after { out.new ≡ put 15 (Words.cache_words c) out.old }
    ensures out_len { length out.new ≡ 1150 }
{
    let g = c.pages;
    put_pages(g, out);
    let r = c.missing;
    put_ring(r, out);
    let under_way = c.loading;
    put_loading(under_way, out);
    let open = c.pending;
    put_pending(open, out);
    put_word(out, 538, c.loads);
}

fn put_shared(s: Shared, out: &mut [u32; crate::WORDS])
    requires { length out.old ≡ 1150 }
    ensures out_after { out.new ≡ put 0 (Words.shared_words s) out.old }
    ensures out_len { length out.new ≡ 1150 }
{
    let read = s.phase;
    let first = [crate::VERSION, phase(read)];
    put(out, 0, &first);
    let h = s.header;
    put_header(h, out);
    let c = s.cache;
    put_cache(c, out);
}

// ---- the fixes

pub(crate) fn fix(fix: Option<Fix>) -> [u32; 5]
    ensures { result ≡ Words.fix_words fix }
{
    match fix {
        None => [0, 0, 0, 0, 0],
        Some(f) => [
            1,
            num::cast::u32_of_i32(f.lat),
            num::cast::u32_of_i32(f.lon),
            low(f.at_ms),
            high(f.at_ms),
        ],
    }
}

pub(crate) fn point(p: Point) -> [u32; 2]
    ensures { result ≡ Words.point_words p }
{
    [num::cast::u32_of_i32(p.lat), num::cast::u32_of_i32(p.lon)]
}

fn put_points(h: Places, out: &mut [u32; crate::WORDS])
    requires { length out.old ≡ 1150 }
    ensures out_after { out.new ≡ put 544 (Words.points_words h.v) out.old }
    ensures out_len { length out.new ≡ 1150 }
{
    for i in 0..16 {
        let p = point(h.v[i]);
        put(out, 544 + 2 * i, &p);
    }
}

fn put_places(h: Places, out: &mut [u32; crate::WORDS])
    requires { length out.old ≡ 1150 }
    ensures out_after { out.new ≡ put 544 (Words.places_words h) out.old }
    ensures out_len { length out.new ≡ 1150 }
{
    put_points(h, out);
    let len = [size(h.len)];
    put(out, 576, &len);
}

pub(crate) fn heading(heading: Heading) -> [u32; 2]
    ensures { result ≡ Words.heading_words heading }
{
    match heading {
        Heading::Nothing => [0, 0],
        Heading::Degrees(d) => [1, pattern(d)],
    }
}

fn put_sight(s: Sight, out: &mut [u32; crate::WORDS])
    requires { length out.old ≡ 1150 }
    ensures out_after { out.new ≡ put 539 (Words.sight_words s) out.old }
    ensures out_len { length out.new ≡ 1150 }
{
    let newest = s.fix;
    let f = fix(newest);
    put(out, 539, &f);
    let history = s.history;
    put_places(history, out);
    let of_travel = s.heading;
    let h = heading(of_travel);
    put(out, 577, &h);
    let at = [low(s.heading_at), high(s.heading_at)];
    put(out, 579, &at);
}

// ---- the match

pub(crate) fn forward(forward: Option<bool>) -> u32
    ensures { result ≡ Words.forward_word forward }
{
    match forward {
        None => 0,
        Some(ahead) => {
            if ahead {
                return 2;
            }
            1
        }
    }
}

fn matched(m: Matched) -> [u32; 14]
    ensures { result ≡ 1 ∷ Words.matched_words m }
{
    let tile = m.tile;
    let key = tile.key;
    let way = m.forward;
    [
        1,
        of_key(key),
        tile.crc,
        wide(tile.edges),
        wide(m.edge),
        wide(m.segment),
        pattern(m.fraction),
        forward(way),
        pattern(m.offset_m),
        num::cast::u32_of_i32(m.z_dm),
        byte(m.class),
        byte(m.flags),
        byte(m.confidence),
        pattern(m.ridden_m),
    ]
}

pub fn current(c: Option<Matched>) -> [u32; 14]
    ensures { result ≡ Words.current_words c }
{
    match c {
        None => [0, 0, 0, 0, 0, 0, 0, 0, 0, 0, 0, 0, 0, 0],
        Some(m) => matched(m),
    }
}

pub fn challenger(c: Option<(TileId, u16, u8)>) -> [u32; 6]
    ensures { result ≡ Words.challenger_words c }
{
    match c {
        None => [0, 0, 0, 0, 0, 0],
        Some((tile, edge, count)) => {
            let key = tile.key;
            [
                1,
                of_key(key),
                tile.crc,
                wide(tile.edges),
                wide(edge),
                byte(count),
            ]
        }
    }
}

pub(crate) fn put_matcher(m: Matcher, out: &mut [u32; crate::WORDS])
    requires { length out.old ≡ 1150 }
    ensures out_after { out.new ≡ put 581 (Words.matcher_words m) out.old }
    ensures out_len { length out.new ≡ 1150 }
{
    let held = m.current;
    let c = current(held);
    put(out, 581, &c);
    let other = m.challenger;
    let d = challenger(other);
    put(out, 595, &d);
    let rest = [byte(m.misses), pattern(m.run_from_m)];
    put(out, 601, &rest);
}

// ---- what is due

pub(crate) fn time(t: Option<u64>) -> [u32; 3]
    ensures { result ≡ Words.time_words t }
{
    match t {
        None => [0, 0, 0],
        Some(at) => [1, low(at), high(at)],
    }
}

pub(crate) fn put_due(d: Due, out: &mut [u32; crate::WORDS])
    requires { length out.old ≡ 1150 }
    ensures out_after { out.new ≡ put 603 (Words.due_words d) out.old }
    ensures out_len { length out.new ≡ 1150 }
{
    let flags = [bit(d.matching), bit(d.road)];
    put(out, 603, &flags);
    let last = d.last_road;
    let t = time(last);
    put(out, 605, &t);
    let need = d.need;
    let rest = [has(need), held(need), wide(d.reloads)];
    put(out, 608, &rest);
}

// ---- the road

pub(crate) fn height(z: i16) -> u32
    ensures { result ≡ bits32 z }
{
    num::cast::u32_of_i32(z as i32)
}

fn put_samples(a: Ahead, out: &mut [u32; crate::WORDS])
    requires { length out.old ≡ 1150 }
    ensures out_after { out.new ≡ put 629 (Words.heights_words a.samples 501) out.old }
    ensures out_len { length out.new ≡ 1150 }
{
    for i in 0..predict::MAX_SAMPLES {
        let z = [height(a.samples[i])];
        put(out, 629 + i, &z);
    }
}

fn put_behind(a: Ahead, out: &mut [u32; crate::WORDS])
    requires { length out.old ≡ 1150 }
    ensures out_after { out.new ≡ put 1131 (Words.heights_words a.behind 11) out.old }
    ensures out_len { length out.new ≡ 1150 }
{
    for i in 0..predict::BEHIND_SAMPLES {
        let z = [height(a.behind[i])];
        put(out, 1131 + i, &z);
    }
}

pub(crate) fn end(end: End) -> u32
    ensures { result ≡ Words.end_word end }
{
    match end {
        End::Horizon => 0,
        End::Fork => 1,
        End::DeadEnd => 2,
        End::MapEdge => 3,
        End::Uncertain => 4,
        End::Memory => 5,
    }
}

pub(crate) fn put_ahead(a: Ahead, out: &mut [u32; crate::WORDS])
    requires { length out.old ≡ 1150 }
    ensures out_after { out.new ≡ put 611 (Words.ahead_words a) out.old }
    ensures out_len { length out.new ≡ 1150 }
{
    let first = [a.generation, low(a.at_ms), high(a.at_ms)];
    put(out, 611, &first);
    let held = a.matched;
    let c = current(held);
    put(out, 614, &c);
    let z = [num::cast::u32_of_i32(a.start_z_dm)];
    put(out, 628, &z);
    put_samples(a, out);
    let len = [size(a.len)];
    put(out, 1130, &len);
    put_behind(a, out);
    let why = a.end;
    let rest = [
        size(a.behind_len),
        pattern(a.behind_m),
        end(why),
        pattern(a.end_m),
        byte(a.confidence),
    ];
    put(out, 1142, &rest);
}

// ---- the whole

fn put_follower(f: Follower, out: &mut [u32; crate::WORDS])
    requires { length out.old ≡ 1150 }
    ensures out_after { out.new ≡ put 539 (Words.follower_words f) out.old }
    ensures out_len { length out.new ≡ 1150 }
{
    let s = f.sight;
    put_sight(s, out);
    let m = f.matcher;
    put_matcher(m, out);
    let d = f.due;
    put_due(d, out);
    let a = f.ahead;
    put_ahead(a, out);
    let rest = [byte(f.failures), pattern(f.horizon_m), f.steps];
    put(out, 1147, &rest);
}

pub(crate) fn engine(e: Engine, out: &mut [u32; crate::WORDS])
    requires { length out.old ≡ 1150 }
    ensures out_after { out.new ≡ Words.words e }
    ensures out_len { length out.new ≡ 1150 }
{
    let s = e.shared;
    put_shared(s, out);
    let f = e.follower;
    put_follower(f, out);
}
