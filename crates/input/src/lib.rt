#![tactic(auto)]
// Reading as much of an input as a buffer takes.
ghost use Rattle.std.specs.Prelude.{◌≤◌, length, take};
ghost use Rattle.std.specs.Io.KnownBytes.{Consumes};
ghost use Rattle.input.specs.Counts.{IsPrefixLen};

use std::io::Read;

// One read; 0 where the input has ended or the read fails. Of an input whose bytes are known, what is read are its next bytes.
fn read_some<R: Read>(input: &mut R, buf: &mut [u8]) -> usize
    ensures bound { result ≤ length buf.new }
    ensures bytes { Consumes (R.remaining input.old) (R.remaining input.new) (take result buf.new) }
{
    input.read(buf).unwrap_or(0)
}

// Kept: a `while`, and a count beside the buffer: each turn goes on by as much as was read, and memory is fixed.
// Reads until the buffer is full, the input ends or a read fails, and returns how many bytes it put at the start of the buffer. On an empty buffer it makes no
// call. Of an input whose bytes are known, what it put there are its next bytes, in their order, and no other byte of it is gone.
pub fn read_full<R: Read>(input: &mut R, buf: &mut [u8]) -> usize
    ensures count { IsPrefixLen result buf.new }
    ensures bytes { Consumes (R.remaining input.old) (R.remaining input.new) (take result buf.new) }
{
    let mut done = 0;
    while done < buf.len() {
        let n = read_some(input, &mut buf[done..]);
        if n == 0 {
            break;
        }
        done += n;
    }
    done
}
