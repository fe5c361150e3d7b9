// What a program reads: its arguments, and an input up to its end.
#![tactic(auto)]

ghost use Rattle.std.specs.Prelude.{◌≡◌, ◌<◌, length, take, IfOk, IfSome};
ghost use Rattle.std.specs.Io.{ReadsAtMost};
ghost use Rattle.std.specs.Io.KnownBytes.{Consumes, IsAtEnd};
ghost use Rattle.std.specs.Counts.{IsPrefixLen};

use std::env::FillError;
use std::io;
use std::io::Read;
use std::rt::Env;

// Reads until the buffer is full or the input ends, and returns how many bytes it put at the buffer's start: the next ones of the input, in their order, and all
// that it has where they are fewer than the buffer's. An empty buffer makes no call. (How many reads that takes is known at the end alone: so a `while`.)
pub fn read_full<R: Read>(input: &mut R, buf: &mut [u8]) -> io::Result<usize>
    ensures bound { ReadsAtMost result buf.new }
    ensures next_bytes { IfOk result (λ n. Consumes (R.remaining input.old) (R.remaining input.new) (take n buf.new)) }
    ensures up_to_the_end { IfOk result (λ n. n < length buf.new → IsAtEnd (R.remaining input.new)) }
{
    let mut done = 0;
    while done < buf.len() {
        let n = input.read(&mut buf[done..])?;
        if n == 0 {
            return Ok(done);
        }
        done += n;
    }
    Ok(done)
}

// Whether the program was started with an argument of this number; 0 is its own name. No clause says more: std's has none on which arguments there are.
pub fn has_argument(rt: &impl Env, i: usize) -> bool {
    !matches!(rt.arg(i, &mut []), Err(FillError::NotPresent))
}

// Puts argument i at the buffer's start and returns its length, or 0 where it is missing or longer than the buffer. A number and no Option: it can't fail, and
// programs take an empty argument and a missing one alike.
pub fn argument(rt: &impl Env, i: usize, buf: &mut [u8]) -> usize
    ensures { IsPrefixLen result buf.new }
{
    rt.arg(i, buf).unwrap_or(0)
}
