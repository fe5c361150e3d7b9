// The numbers of a line: the words behind its first. None where one is missing or too many, or doesn't fit its type.
use pack::TileKey;
use writer::Grid;

// What stands between words: blanks, tabs, and the return that some editors put before a line's end.
pub(crate) fn is_blank(b: &u8) -> bool {
    matches!(b, b' ' | b'\t' | b'\r')
}

// One digit or more, and nothing else. A number past 64 bits is held to them, which no field has either. By hand: `parse` takes a '+' too, and asks for a text, whose
// check takes as long as the reading.
fn digits(word: &[u8]) -> Option<u64> {
    if word.is_empty() {
        return None;
    }
    let mut size = 0u64;
    for b in word {
        if !b.is_ascii_digit() {
            return None;
        }
        size = size.saturating_mul(10).saturating_add(u64::from(b % 16));
    }
    Some(size)
}

fn number<T: TryFrom<u64>>(word: &[u8]) -> Option<T>
where
    T::Error: Drop,
{
    T::try_from(digits(word)?).ok()
}

// The same with a '-' before it where it is negative.
fn signed(word: &[u8]) -> Option<i32> {
    if let Some((b'-', rest)) = word.split_first() {
        let size = i64::try_from(digits(rest)?).ok()?;
        return i32::try_from(-size).ok();
    }
    number(word)
}

// So many numbers.
pub(crate) fn numbers<T: TryFrom<u64> + Copy + Default, const N: usize>(
    words: &[&[u8]],
) -> Option<[T; N]>
where
    T::Error: Drop,
{
    if words.len() != N {
        return None;
    }
    let mut all = [T::default(); N];
    for i in 0..N {
        all[i] = number(words[i])?;
    }
    Some(all)
}

pub(crate) fn grid(words: &[&[u8]]) -> Option<Grid> {
    let [south, west, size, rows, cols] = words else {
        return None;
    };
    Some(Grid {
        south: signed(south)?,
        west: signed(west)?,
        size: number(size)?,
        rows: number(rows)?,
        cols: number(cols)?,
    })
}

// A tile's key, and its micrometres per micro-degree of longitude.
pub(crate) fn tile(words: &[&[u8]]) -> Option<(TileKey, u32)> {
    let [row, col, lon_um] = words else {
        return None;
    };
    let key = TileKey {
        row: number(row)?,
        col: number(col)?,
    };
    Some((key, number(lon_um)?))
}
