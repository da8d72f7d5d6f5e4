#![tactic(auto)]
// Says how many loads a plan has, and how many the same list in the same order can be run with: audit JOB PLAN, the names of two files.
ghost use Rattle.std.specs.Prelude.{List, ℕ};
ghost use Rattle.input.specs.Counts.{IsPrefixLen};
ghost use Rattle.report.specs.Audit.{audit};
ghost use Rattle.report.specs.Input.{Enough};

use std::env::{Env, FillError};
use std::io::{Read, Write};
use std::rt::Files;
use std::{fs, io, str};

// Kept: each program has its own constant and reader: one for all would be a public function with a `requires`, which no crate here has, and the edits
// `job_input` change the number in each program.
// How many bytes of a job and of a plan can matter: one that reads has at most 2,311 and 5,130, and the next byte tells that there are more.
const JOB_INPUT: usize = 2_312;

const PLAN_INPUT: usize = 5_131;

// Says on standard error what failed and why, the system's text without its number.
fn fail<R: Eprint + Alloc>(rt: &R, name: &str, error: io::Error) -> io::Result<()> {
    let text = format!(in rt.alloc(); "{error}")?;
    match text.as_str().split_once(" (os error ") {
        Some((told, _)) => eprintln!(rt; "{name}: {told}"),
        None => eprintln!(rt; "{name}: {text}"),
    }
}

// Opens the file that an argument names, or says why it cannot.
fn open_argument<R: Env + Files + Eprint + Alloc>(rt: &R, i: usize) -> io::Result<Option<R::File>> {
    let mut path = [0u8; 4_096];
    match rt.arg(i, &mut path) {
        Err(FillError::NotPresent) => {
            eprintln!(rt; "audit JOB PLAN: Invalid argument")?;
            Ok(None)
        }
        Err(FillError::TooLong) => {
            eprintln!(rt; "audit JOB PLAN: File name too long")?;
            Ok(None)
        }
        Ok(n) => match str::from_utf8(&path[..n]) {
            Err(_) => {
                eprintln!(rt; "audit JOB PLAN: Invalid or incomplete multibyte or wide character")?;
                Ok(None)
            }
            Ok(name) => match fs::open(rt, name) {
                Ok(file) => Ok(Some(file)),
                Err(error) => {
                    fail(rt, name, error)?;
                    Ok(None)
                }
            },
        },
    }
}

// Reads the job's file, as much as can matter: whatever the whole of it is, and whatever the plan, the audit is that of the bytes read.
fn read_job<R: Read>(file: &mut R, job: &mut [u8; JOB_INPUT]) -> usize
    ensures count { IsPrefixLen result job.new }
    ensures enough { (plan : List ℕ) → Enough (λ whole. audit whole plan) result job.new }
{
    input::read_full(file, job)
}

// Reads the plan's file, as much as can matter, whatever the job.
fn read_plan<R: Read>(file: &mut R, plan: &mut [u8; PLAN_INPUT]) -> usize
    ensures count { IsPrefixLen result plan.new }
    ensures enough { (job : List ℕ) → Enough (λ whole. audit job whole) result plan.new }
{
    input::read_full(file, plan)
}

// Prints the audit of what the two files hold.
fn print_audit<P: Print, R: Read>(rt: &P, job_file: &mut R, plan_file: &mut R) -> io::Result<()> {
    let mut job = [0u8; JOB_INPUT];
    let n = read_job(job_file, &mut job);
    let mut plan = [0u8; PLAN_INPUT];
    let m = read_plan(plan_file, &mut plan);
    let mut text = [0u8; report::audit::AUDIT_BYTES];
    let k = report::audit::audit_text(&job[..n], &plan[..m], &mut text);
    io::writer(rt).write_all(&text[..k])
}

fn main(rt: HostRuntime) -> io::Result<()> {
    match open_argument(&rt, 1)? {
        None => Ok(()),
        Some(mut job_file) => match open_argument(&rt, 2)? {
            None => Ok(()),
            Some(mut plan_file) => print_audit(&rt, &mut job_file, &mut plan_file),
        },
    }
}
