#![tactic(auto)]
// Prints the sheet of the job on standard input.
ghost use Rattle.input.specs.Counts.{IsPrefixLen};
ghost use Rattle.report.specs.Report.{sheet};
ghost use Rattle.report.specs.Input.{Enough};

use std::io;
use std::io::{Read, Write};

// Kept: each program has its own constant and reader: one for all would be a public function with a `requires`, which no crate here has, and the edits
// `job_input` change the number in each program.
// How many bytes of a job can matter: one that reads has at most 2,311, and the next byte tells that there are more.
const JOB_INPUT: usize = 2_312;

// Reads the input, as much as can matter: whatever the whole of it is, its sheet is that of the bytes read.
fn read_input<R: Read>(input: &mut R, job: &mut [u8; JOB_INPUT]) -> usize
    ensures count { IsPrefixLen result job.new }
    ensures enough { Enough sheet result job.new }
{
    input::read_full(input, job)
}

fn main(rt: HostRuntime) -> io::Result<()> {
    let mut job = [0u8; JOB_INPUT];
    let n = read_input(&mut rt.reader(), &mut job);
    let mut text = [0u8; report::SHEET_BYTES];
    let k = report::sheet_text(&job[..n], &mut text);
    io::writer(&rt).write_all(&text[..k])
}
