#![tactic(auto)]
// Prints the table of drive sizes for the job on standard input: sizes [LOADS] < JOB. With a count of loads, also the fewest places for it.
ghost use Rattle.std.specs.Prelude.{ℕ};
ghost use Rattle.lists.specs.Choice.{Found};
ghost use Rattle.input.specs.Counts.{IsPrefixLen};
ghost use Rattle.report.specs.SizeTable.{size_table};
ghost use Rattle.report.specs.Input.{Enough};

use std::env::{Env, FillError};
use std::io;
use std::io::{Read, Write};

// Kept: each program has its own constant and reader: one for all would be a public function with a `requires`, which no crate here has, and the edits
// `job_input` change the number in each program.
// How many bytes of a job can matter: one that reads has at most 2,311, and the next byte tells that there are more.
const JOB_INPUT: usize = 2_312;

// Reads the input, as much as can matter: whatever the whole of it is, and whatever count is asked for, its table is that of the bytes read.
fn read_input<R: Read>(input: &mut R, job: &mut [u8; JOB_INPUT]) -> usize
    ensures count { IsPrefixLen result job.new }
    ensures enough { (wanted : Found ℕ) → Enough (λ whole. size_table whole wanted) result job.new }
{
    input::read_full(input, job)
}

fn print_table<R: Input + Print>(rt: &R, wanted: Option<usize>) -> io::Result<()> {
    let mut job = [0u8; JOB_INPUT];
    let n = read_input(&mut rt.reader(), &mut job);
    let mut text = [0u8; report::sizes::TABLE_BYTES];
    let k = report::sizes::size_table_text(&job[..n], wanted, &mut text);
    io::writer(rt).write_all(&text[..k])
}

// Whether there is such an argument; the program's own name is the first.
fn has_argument(rt: &impl Env, i: usize) -> bool {
    let mut word = [0u8; 8];
    match rt.arg(i, &mut word) {
        Ok(_) => true,
        Err(FillError::TooLong) => true,
        Err(FillError::NotPresent) => false,
    }
}

// The count of loads that the argument names. Of a word that is longer than the buffer no byte counts, and an empty one is no count.
fn wanted_argument(rt: &impl Env, i: usize) -> Option<usize> {
    let mut word = [0u8; 8];
    match rt.arg(i, &mut word) {
        Ok(n) => report::sizes::wanted_in(&word[..n]),
        Err(_) => None,
    }
}

fn main(rt: HostRuntime) -> io::Result<()> {
    if !has_argument(&rt, 1) {
        return print_table(&rt, None);
    }
    if !has_argument(&rt, 2) {
        let wanted = wanted_argument(&rt, 1);
        if wanted.is_some() {
            return print_table(&rt, wanted);
        }
    }
    io::writer(&rt).write_all(b"sizes [LOADS] < JOB\n")
}
