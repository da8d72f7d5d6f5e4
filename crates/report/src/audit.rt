// A plan from anywhere, beside the fewest loads that its order allows: "my sheet has 41 loads; can the same list be run with 40?"
ghost use Rattle.std.specs.Prelude.{◌≡◌, ◌≤◌, length};
ghost use Rattle.job.specs.Refusal.{done, mapped, outcome, overwritten};
ghost use Rattle.job.specs.Words.{job_of};
ghost use Rattle.drive.specs.Steps.{load_count};
ghost use Rattle.planning.specs.Plan.{plan_of};
ghost use Rattle.planning.specs.Planning.{planning};
ghost use Rattle.report.specs.ContractWords.{Appended, Filled};
ghost use Rattle.report.specs.Audit.{audited_outcome, audit_steps, audit_plan, audit, audit_text, audit_answer, audit_buffer};

use crate::{Text, write_refusal, write_text};
use job::{Head, MOST_TESTS, Refusal};

// A buffer that takes every audit.
pub const AUDIT_BYTES: usize = 128;

// The load count of a plan, and the fewest loads that its order allows.
#[derive(Clone, Copy)]
struct LoadCounts {
    loads: usize,
    fewest: usize,
}

// A load count beside that of our plan for the same order.
fn beside_fewest(
    head: Head,
    wants: &[u64],
    order: &[u16],
    count: usize,
) -> Result<LoadCounts, Refusal>
    requires { (length wants.now ≡ head.tests) × (head.tests ≤ 256) }
    ensures { outcome result
        ≡ mapped (λ p. record { loads = count; fewest = load_count p }) (planning (job_of head.rig wants.now) 0 order.now head.tests) }
{
    let mut drops = [0u64; MOST_TESTS];
    let mut loads = [0u64; MOST_TESTS];
    let ours = planning::plan(head.rig, wants, 0, order, &mut drops, &mut loads)?;
    Ok(LoadCounts {
        loads: count,
        fewest: ours.count,
    })
}

// The steps and the end set of a plan from an empty drive: the plan check, then the fewest loads.
fn audit_steps(
    head: Head,
    wants: &[u64],
    order: &[u16],
    drops: &[u64],
    loads: &[u64],
    end: u64,
) -> Result<LoadCounts, Refusal>
    requires { (length wants.now ≡ head.tests) × (head.tests ≤ 256) }
    ensures { outcome result ≡ audit_steps (record { head = head; wants = wants.now }) order.now (plan_of drops.now loads.now end) }
{
    let count = planning::check_plan(head.rig, wants, 0, order, drops, loads, end)?;
    beside_fewest(head, wants, order, count)
}

// A plan's bytes for a job that was read.
fn audit_plan(head: Head, wants: &[u64], plan: &[u8]) -> Result<LoadCounts, Refusal>
    requires { (length wants.now ≡ head.tests) × (head.tests ≤ 256) }
    ensures { outcome result ≡ audit_plan (record { head = head; wants = wants.now }) plan.now }
{
    let n = head.tests;
    let mut order = [0u16; MOST_TESTS];
    let mut drops = [0u64; MOST_TESTS];
    let mut loads = [0u64; MOST_TESTS];
    let read = plan_bytes::read_plan(head.rig.curves, n, plan, &mut order, &mut drops, &mut loads)?;
    audit_steps(head, wants, &order[..n], &drops[..n], &loads[..n], read.end)
}

// A job's bytes and a plan's bytes: what comes of reading the job, and within it what comes of the plan.
fn audit(job: &[u8], plan: &[u8]) -> Result<Result<LoadCounts, Refusal>, Refusal>
    ensures { audited_outcome result ≡ audit job.now plan.now }
{
    let mut wants = [0u64; MOST_TESTS];
    let head = job_bytes::read_job(job, &mut wants)?;
    let n = head.tests;
    Ok(audit_plan(head, &wants[..n], plan))
}

fn put_counts(to: &mut Text, loads: usize, fewest: usize)
    requires { fewest ≤ loads }
    ensures { Appended to.old (audit_text (done (done (record { loads = loads; fewest = fewest })))) to.new }
{
    to.text(b"loads ");
    to.number(loads, b"\nfewest ");
    to.number(fewest, b"\nshorter by ");
    to.number(loads - fewest, b"\n");
}

// The counts as text, where the buffer has room for it.
fn write_counts(loads: usize, fewest: usize, out: &mut [u8]) -> Result<usize, Refusal>
    requires { fewest ≤ loads }
    ensures { Filled (audit_text (done (done (record { loads = loads; fewest = fewest })))) out.old (outcome result) out.new }
{
    write_text(|to| put_counts(to, loads, fewest), out)
}

// The audit of a plan's bytes for a job's bytes, as text in a lent buffer.
pub fn write_audit(job: &[u8], plan: &[u8], out: &mut [u8]) -> Result<usize, Refusal>
    ensures answer { outcome result ≡ audit_answer job.now plan.now out.old }
    ensures bytes { out.new ≡ audit_buffer job.now plan.now out.old }
{
    match audit(job, plan) {
        Err(r) => write_refusal(b"", r, out),
        Ok(Err(r)) => write_refusal(b"plan ", r, out),
        Ok(Ok(counts)) => write_counts(counts.loads, counts.fewest, out),
    }
}

// The whole audit of a plan's bytes for a job's bytes, for every input, and how many bytes it has.
pub fn audit_text(job: &[u8], plan: &[u8], text: &mut [u8; AUDIT_BYTES]) -> usize
    ensures count { result ≡ length (audit_text (audit job.now plan.now)) }
    ensures bytes { text.new ≡ overwritten (audit_text (audit job.now plan.now)) text.old }
{
    // never an error: the buffer takes every text
    write_audit(job, plan, text).unwrap()
}
