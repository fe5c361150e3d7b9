// Whether words are some engine's, piece by piece: what is read from a piece, written again, has to be the words that stand there. No second row of words is made, and most of the pieces come
// down to a test of a tag or of a number's size.
ghost use Rattle.std.specs.Prelude.{◌≡◌, ◌+◌, ◌≤◌, ◌&&◌, length};
ghost use Rattle.words.specs.Held as Held;
ghost use Rattle.words.specs.Words as Words;

use crate::{decode, encode};

// Both are always known, so that a loop has no way out but its end.
fn both(a: bool, b: bool) -> bool
    ensures { result ≡ (a && b) }
{
    if a {
        return b;
    }
    false
}

// The words of one piece, against those at its place.
fn held(ws: &[u32; crate::WORDS], at: usize, piece: &[u32]) -> bool
    requires { at + length piece.now ≤ 1150 }
    ensures { result ≡ Held.held_at at piece.now ws.now }
{
    let mut ok = true;
    for i in 0..piece.len() {
        ok = both(ok, piece[i] == ws[at + i]);
    }
    ok
}

// ---- arrays

fn slot(ws: &[u32; crate::WORDS], at: usize) -> bool
    requires { at + 3 ≤ 1150 }
    ensures { result ≡ Held.slot_held ws.now at }
{
    let s = encode::slot(decode::slot(ws, at));
    held(ws, at, &s)
}

fn slots(ws: &[u32; crate::WORDS]) -> bool
    ensures { result ≡ Held.slots_held ws.now 96 }
{
    let mut ok = true;
    for i in 0..cache::MAX_PAGES {
        ok = both(ok, slot(ws, 15 + 3 * i));
    }
    ok
}

fn place(ws: &[u32; crate::WORDS], at: usize) -> bool
    requires { at + 2 ≤ 1150 }
    ensures { result ≡ Held.place_held ws.now at }
{
    let key = decode::place(ws, at);
    let k = [encode::has(key), encode::held(key)];
    held(ws, at, &k)
}

fn keys(ws: &[u32; crate::WORDS]) -> bool
    ensures { result ≡ Held.keys_held ws.now 64 }
{
    let mut ok = true;
    for i in 0..cache::MISSING {
        ok = both(ok, place(ws, 401 + 2 * i));
    }
    ok
}

fn point(ws: &[u32; crate::WORDS], at: usize) -> bool
    requires { at + 2 ≤ 1150 }
    ensures { result ≡ Held.point_held ws.now at }
{
    let p = encode::point(decode::point(ws, at));
    held(ws, at, &p)
}

fn points(ws: &[u32; crate::WORDS]) -> bool
    ensures { result ≡ Held.points_held ws.now 16 }
{
    let mut ok = true;
    for i in 0..16 {
        ok = both(ok, point(ws, 544 + 2 * i));
    }
    ok
}

fn height(word: u32) -> bool
    ensures { result ≡ Held.height_held word }
{
    encode::height(decode::height(word)) == word
}

fn heights(ws: &[u32; crate::WORDS], at: usize, n: usize) -> bool
    requires { at + n ≤ 1150 }
    ensures { result ≡ Held.heights_held ws.now at n }
{
    let mut ok = true;
    for i in 0..n {
        ok = both(ok, height(ws[at + i]));
    }
    ok
}

// ---- the pack

fn ring(ws: &[u32; crate::WORDS]) -> bool
    ensures { result ≡ Held.held_at 401 (Words.ring_words (Words.ring_of ws.now 401)) ws.now }
{
    let next = [encode::size(decode::size(ws[529]))];
    both(keys(ws), held(ws, 529, &next))
}

// But for the slots; an age is its word.
fn cache(ws: &[u32; crate::WORDS]) -> bool
    ensures { result ≡ Held.beside_cache ws.now }
{
    let counts = [encode::size(decode::size(ws[399])), ws[400]];
    let l = encode::loading(decode::loading(ws));
    let p = encode::pending(decode::pending(ws[536], ws[537]));
    let loads = [ws[538]];
    both(
        held(ws, 399, &counts),
        both(
            ring(ws),
            both(
                held(ws, 530, &l),
                both(held(ws, 536, &p), held(ws, 538, &loads)),
            ),
        ),
    )
}

fn shared(ws: &[u32; crate::WORDS]) -> bool
    ensures { result ≡ Held.beside_shared ws.now }
{
    let first = [crate::VERSION, encode::phase(decode::phase(ws[1]))];
    let h = encode::header(decode::header(ws));
    both(held(ws, 0, &first), both(held(ws, 2, &h), cache(ws)))
}

// ---- the fixes and the match

fn places(ws: &[u32; crate::WORDS]) -> bool
    ensures { result ≡ Held.held_at 544 (Words.places_words (Words.places_of ws.now 544)) ws.now }
{
    let len = [encode::size(decode::size(ws[576]))];
    both(points(ws), held(ws, 576, &len))
}

fn sight(ws: &[u32; crate::WORDS]) -> bool
    ensures { result ≡ Held.held_at 539 (Words.sight_words (Words.sight_of ws.now 539)) ws.now }
{
    let f = encode::fix(decode::fix(ws));
    let h = encode::heading(decode::heading(ws[577], ws[578]));
    let n = decode::long(ws[579], ws[580]);
    let at = [encode::low(n), encode::high(n)];
    both(
        held(ws, 539, &f),
        both(places(ws), both(held(ws, 577, &h), held(ws, 579, &at))),
    )
}

fn matcher(ws: &[u32; crate::WORDS]) -> bool
    ensures { result ≡ Held.held_at 581 (Words.matcher_words (Words.matcher_of ws.now 581)) ws.now }
{
    let c = encode::current(decode::current(ws, 581));
    let d = encode::challenger(decode::challenger(ws));
    let rest = [
        encode::byte(decode::byte(ws[601])),
        encode::pattern(decode::float(ws[602])),
    ];
    both(
        held(ws, 581, &c),
        both(held(ws, 595, &d), held(ws, 601, &rest)),
    )
}

// ---- what is due and the road

fn due(ws: &[u32; crate::WORDS]) -> bool
    ensures { result ≡ Held.held_at 603 (Words.due_words (Words.due_of ws.now 603)) ws.now }
{
    let flags = [encode::bit(ws[603] == 1), encode::bit(ws[604] == 1)];
    let t = encode::time(decode::time(ws[605], ws[606], ws[607]));
    let need = decode::maybe_key(ws[608], ws[609]);
    let rest = [
        encode::has(need),
        encode::held(need),
        encode::wide(decode::short(ws[610])),
    ];
    both(
        held(ws, 603, &flags),
        both(held(ws, 605, &t), held(ws, 608, &rest)),
    )
}

// The heights, and what stands behind them.
fn road(ws: &[u32; crate::WORDS]) -> bool
    ensures { result ≡ Held.road_held ws.now }
{
    let len = [encode::size(decode::size(ws[1130]))];
    let rest = [
        encode::size(decode::size(ws[1142])),
        encode::pattern(decode::float(ws[1143])),
        encode::end(decode::end(ws[1144])),
        encode::pattern(decode::float(ws[1145])),
        encode::byte(decode::byte(ws[1146])),
    ];
    both(
        heights(ws, 629, 501),
        both(
            held(ws, 1130, &len),
            both(heights(ws, 1131, 11), held(ws, 1142, &rest)),
        ),
    )
}

fn ahead(ws: &[u32; crate::WORDS]) -> bool
    ensures { result ≡ Held.held_at 611 (Words.ahead_words (Words.ahead_of ws.now 611)) ws.now }
{
    let n = decode::long(ws[612], ws[613]);
    let first = [ws[611], encode::low(n), encode::high(n)];
    let c = encode::current(decode::current(ws, 614));
    let z = [num::cast::u32_of_i32(pack::bytes::signed_32(ws[628]))];
    both(
        held(ws, 611, &first),
        both(held(ws, 614, &c), both(held(ws, 628, &z), road(ws))),
    )
}

// ---- the whole

fn follower(ws: &[u32; crate::WORDS]) -> bool
    ensures { result ≡ Held.held_at 539 (Words.follower_words (Words.follower_of ws.now)) ws.now }
{
    let last = [
        encode::byte(decode::byte(ws[1147])),
        encode::pattern(decode::float(ws[1148])),
        ws[1149],
    ];
    both(
        sight(ws),
        both(
            matcher(ws),
            both(due(ws), both(ahead(ws), held(ws, 1147, &last))),
        ),
    )
}

// All but the slots.
pub(crate) fn beside(ws: &[u32; crate::WORDS]) -> bool
    ensures { result ≡ Held.beside ws.now }
{
    if crate::count(ws) != crate::WORDS {
        return false;
    }
    both(shared(ws), follower(ws))
}

pub(crate) fn engine(ws: &[u32; crate::WORDS]) -> bool
    ensures { result ≡ Words.accepted ws.now }
{
    both(beside(ws), slots(ws))
}
