#![tactic(auto)]
// From a job's bytes to an order of its tests and a plan for it: reading, ordering, planning.
ghost use Rattle.std.specs.Prelude.{◌≡◌, ◌≤◌, length};
ghost use Rattle.job.specs.Refusal.{mapped, leaves, outcome};
ghost use Rattle.planning.specs.Plan.{set_lists, leaves_plan};
ghost use Rattle.planned.specs.Planned.{order_request, order_and_plan, plan_job};
ghost use Rattle.planned.specs.ContractWords.{counted, told};
ghost use Rattle.planned.specs.ContractWords.{lists_of, leaves_lists, plan_job_answer, plan_job_lists};

use job::{Head, MOST_TESTS, Refusal};
use planning::CountEnd;

// What comes of a job's bytes: its head, and the load count and the end set of its plan.
#[derive(Clone, Copy)]
pub struct JobPlan {
    pub head: Head,
    pub loads: usize,
    pub end: u64,
}

// Ordering, and planning in that order.
fn order_and_plan(
    head: Head,
    wants: &[u64],
    order: &mut [u16],
    drops: &mut [u64],
    loads: &mut [u64],
) -> Result<CountEnd, Refusal>
    requires tests { (head.tests ≤ 256) × (length wants.now ≡ head.tests) }
    requires lists { (256 ≤ length order.old) × (256 ≤ length drops.old) × (256 ≤ length loads.old) }
    ensures count { outcome result ≡ mapped counted (order_and_plan (record { head = head; wants = wants.now })) }
    ensures order { order.new ≡ leaves (order_request (record { head = head; wants = wants.now })) order.old }
    ensures plan { set_lists drops.new loads.new
        ≡ leaves_plan (λ p. p.plan) (order_and_plan (record { head = head; wants = wants.now })) (set_lists drops.old loads.old) }
{
    let n = head.tests;
    ordering::order_tests(head.rig, head.method, wants, order)?;
    // "planning 8, 7": nothing of it is left, since ordering has asked for 10 and 7, and its order names each test once. "The drive is empty before step 0."
    let capacity = job::capacity(head.rig);
    planning::plan_tests(capacity, wants, 0, &order[..n], drops, loads)
}

// Reading before that.
fn read_and_plan(
    job: &[u8],
    wants: &mut [u64],
    order: &mut [u16],
    drops: &mut [u64],
    loads: &mut [u64],
) -> Result<JobPlan, Refusal>
    requires { (256 ≤ length wants.old) × (256 ≤ length order.old) × (256 ≤ length drops.old) × (256 ≤ length loads.old) }
    ensures answer { outcome result ≡ mapped told (plan_job job.now) }
    ensures lists { lists_of wants.new order.new (set_lists drops.new loads.new)
        ≡ leaves_lists job.now (lists_of wants.old order.old (set_lists drops.old loads.old)) }
{
    let head = job_bytes::read_job(job, wants)?;
    let n = head.tests;
    let plan = order_and_plan(head, &wants[..n], order, drops, loads)?;
    Ok(JobPlan {
        head,
        loads: plan.count,
        end: plan.end,
    })
}

// The wants, the order and the plan of a job's tests, into the first entries of the lists lent, which take 256.
pub fn plan_job(
    job: &[u8],
    wants: &mut [u64],
    order: &mut [u16],
    drops: &mut [u64],
    loads: &mut [u64],
) -> Result<JobPlan, Refusal>
    ensures answer { outcome result ≡ plan_job_answer job.now (lists_of wants.old order.old (set_lists drops.old loads.old)) }
    ensures lists { lists_of wants.new order.new (set_lists drops.new loads.new)
        ≡ plan_job_lists job.now (lists_of wants.old order.old (set_lists drops.old loads.old)) }
{
    let shortest = wants
        .len()
        .min(order.len())
        .min(drops.len())
        .min(loads.len());
    if shortest < MOST_TESTS {
        return Err(Refusal::BufferTooSmall(MOST_TESTS));
    }
    read_and_plan(job, wants, order, drops, loads)
}
