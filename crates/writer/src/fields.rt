// Numbers put into bytes, the low byte first.
ghost use Rattle.std.specs.Prelude.{◌≡◌, ◌+◌, ◌≤◌, length};
ghost use Rattle.writer.specs.Fields.{put};
ghost use Rattle.writer.specs.TileWritten.{field};

// The low WIDTH bytes of a number, put at a place.
pub fn put<const WIDTH: usize>(out: &mut [u8], at: usize, value: u32)
    requires width { WIDTH ≤ 4 }
    requires fits { at + WIDTH ≤ length out.old }
    ensures { out.new ≡ put (field at WIDTH value) out.old }
{
    out[at..at + WIDTH].copy_from_slice(&value.to_le_bytes()[..WIDTH]);
}
