// Finished tiles, as a pack is made of them.
ghost use Rattle.std.specs.Prelude.{true, ◌≡◌, ◌+◌, ◌≤◌, ◌<◌, eqb, length, is_some, IfSome};
ghost use Rattle.writer.specs.PackWritten as PackWritten;
ghost use Rattle.writer.specs.PackSteps as Steps;

use crate::Grid;

// The bytes of the tiles stand one after the other; the lengths cut them with none left over.
#[derive(Clone, Copy)]
pub struct Tiles<'a> {
    pub bytes: &'a [u8],
    pub lengths: &'a [u32],
    ghost whole: { PackWritten.sum_of lengths.now ≡ length bytes.now },
}

// A grid, and tiles of it that number 13 doesn't refuse.
#[derive(Clone, Copy)]
pub struct Checked<'a> {
    pub grid: Grid,
    pub tiles: Tiles<'a>,
    ghost good: { PackWritten.pack_good (Steps.given grid tiles.bytes.now tiles.lengths.now) ≡ true },
}

// The lengths cut the bytes with none left over. What is left is compared, so that no sum wraps.
fn is_whole(bytes: &[u8], lengths: &[u32]) -> bool
    ensures { result ≡ eqb (PackWritten.sum_of lengths.now) (length bytes.now) }
{
    let mut at: usize = 0;
    for &length in lengths {
        if bytes.len() - at < length as usize {
            return false;
        }
        at += length as usize;
    }
    at == bytes.len()
}

impl<'a> Tiles<'a> {
    // None where the lengths leave bytes over or want more of them.
    pub fn cut(bytes: &'a [u8], lengths: &'a [u32]) -> Option<Tiles<'a>>
        ensures is_cut { is_some result ≡ eqb (PackWritten.sum_of lengths.now) (length bytes.now) }
        ensures same { IfSome result (λ t. (t.bytes.now ≡ bytes.now) × (t.lengths.now ≡ lengths.now)) }
    {
        if is_whole(bytes, lengths) {
            Some(Tiles { bytes, lengths })
        } else {
            None
        }
    }

    // Tile `i`, which starts at `at`.
    #[tactic(auto, using(crate::proofs::CutLaws::part_is, crate::proofs::CutLaws::start_more, crate::proofs::CutLaws::start_within))]
    pub fn tile(&self, i: usize, at: usize) -> &'a [u8]
        requires there { i < length self.now.lengths.now }
        requires place { at ≡ Steps.start_of self.now.lengths.now i }
        ensures value { result.now ≡ Steps.numbered self.now.lengths.now self.now.bytes.now i }
        ensures next { at + length result.now ≡ Steps.start_of self.now.lengths.now (i + 1) }
        ensures inside { at + length result.now ≤ length self.now.bytes.now }
    {
        &self.bytes[at..at + self.lengths[i] as usize]
    }
}
