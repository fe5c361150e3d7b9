// The fixes of a drive, read from its text: a line has latitude, longitude and time, a blank between two.
use engine::Fix;

// Every number lies below this: 18 digits, and zeros before them.
const PAST: u64 = 1000000000000000000;

// A fix and where the next line begins; the end of the text; a line that is no fix. Three cases, which an `Option` of a `Result` names no plainer.
#[derive(Clone, Copy)]
pub enum Line {
    Fix(Fix, usize),
    End,
    Bad,
}

// The number that digits are, one digit at least.
fn number(digits: &[u8]) -> Option<u64> {
    let value = str::from_utf8(digits).ok()?.parse::<u64>().ok()?;
    if PAST <= value {
        return None;
    }
    Some(value)
}

// The number below PAST whose digits begin at a place, if the byte behind them is the one that ends it (0 is the text's end), and where the text goes on
// behind that byte.
pub fn read_number(text: &[u8], at: usize, close: u8) -> Option<(u64, usize)> {
    let rest = text.get(at..)?;
    let count = rest
        .iter()
        .position(|b| !b.is_ascii_digit())
        .unwrap_or(rest.len());
    let value = number(rest.get(..count)?)?;
    let end = at.wrapping_add(count);
    if pack::bytes::byte_at(text, end) != close {
        return None;
    }
    Some((value, end.wrapping_add(1)))
}

// A number of 32 bits, with a '-' before it where it is negative.
fn read_figure(text: &[u8], at: usize, close: u8) -> Option<(i32, usize)> {
    if pack::bytes::byte_at(text, at) != b'-' {
        let (size, next) = read_number(text, at, close)?;
        return Some((i32::try_from(size).ok()?, next));
    }
    let (size, next) = read_number(text, at.wrapping_add(1), close)?;
    Some((i32::try_from(size).ok()?.wrapping_neg(), next))
}

// A time ends its line; the last line may end with the text.
fn read_time(text: &[u8], at: usize) -> Option<(u64, usize)> {
    read_number(text, at, b'\n').or_else(|| read_number(text, at, 0))
}

// The fix whose line begins at a place, and where the next line begins.
fn read_fix(text: &[u8], at: usize) -> Option<(Fix, usize)> {
    let (lat, at) = read_figure(text, at, b' ')?;
    let (lon, at) = read_figure(text, at, b' ')?;
    let (t, at) = read_time(text, at)?;
    Some((Fix::from_e7(lat, lon, t), at))
}

// The line that begins at a place.
pub fn read_line(text: &[u8], at: usize) -> Line {
    if text.len() <= at {
        return Line::End;
    }
    match read_fix(text, at) {
        None => Line::Bad,
        Some((fix, next)) => Line::Fix(fix, next),
    }
}
