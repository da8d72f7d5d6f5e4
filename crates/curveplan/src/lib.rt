#![tactic(auto)]
// The call of the rig's host: reading, ordering, planning, writing.
ghost use Rattle.std.specs.Prelude.{◌≡◌, length};
ghost use Rattle.job.specs.Refusal.{outcome, mapped};
ghost use Rattle.curveplan.specs.Call.{job_to_plan, call_answer, call_plan};

use job::{MOST_TESTS, Refusal};

// "The C call: reading, ordering, planning, writing."
fn job_to_plan(job: &[u8], plan: &mut [u8]) -> Result<usize, Refusal>
    ensures count { outcome result ≡ mapped length (job_to_plan job.now (length plan.old)) }
    ensures bytes { plan.new ≡ call_plan job.now plan.old }
{
    let mut wants = [0u64; MOST_TESTS];
    let mut order = [0u16; MOST_TESTS];
    let mut drops = [0u64; MOST_TESTS];
    let mut loads = [0u64; MOST_TESTS];
    let made = planned::plan_job(job, &mut wants, &mut order, &mut drops, &mut loads)?;
    let n = made.head.tests;
    // without the check: it is proved that our plan passes
    plan_bytes::write_steps(&order[..n], &drops[..n], &loads[..n], made.end, plan)
}

// "one call takes the job's bytes and fills the plan's bytes. It answers one number: the count of plan bytes, or on a refusal its number × 65,536 plus its
// figure."
pub fn curveplan_plan(job: &[u8], plan: &mut [u8]) -> u64
    ensures answer { result ≡ call_answer job.now plan.old }
    ensures bytes { plan.new ≡ call_plan job.now plan.old }
{
    match job_to_plan(job, plan) {
        Err(r) => job::number_of(r) * 65_536 + job::figure_of(r),
        Ok(n) => n as u64,
    }
}
