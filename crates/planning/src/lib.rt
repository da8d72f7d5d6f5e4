#![tactic(auto)]
// Plans of a job: the examination of an order, our plan, and the plan check. The rules of one drive are those of `drive`.
ghost use Rattle.std.specs.Prelude.{◌≡◌, ◌≤◌, length};
ghost use Rattle.std.proofs.lemmas.List.Edits.{sets};
ghost use Rattle.job.specs.Refusal.{outcome};
ghost use Rattle.job.specs.Words.{job_of};
ghost use Rattle.drive.specs.Steps.{curve_count};
ghost use Rattle.planning.specs.Plan.{plan_of, set_lists, in_order};
ghost use Rattle.planning.specs.Planning.{plan_answer, plan_lists, sets_known, checking};
ghost use Rattle.planning.specs.Demand3.{Demand3};
ghost use Rattle.planning.specs.ContractWords.{tests_answer, tests_lists};

use job::{Refusal, Rig};

// 02, wish 1: "planning answers it beside the load count": a count, of loads or of steps, and the end set, 0 for none.
#[derive(Clone, Copy)]
pub struct CountEnd {
    pub count: usize,
    pub end: u64,
}

// 12: "first missing or surplus position of the drops or loads, the smaller", of the lengths of three lists.
pub fn examine_sets(tests: usize, drops: usize, loads: usize) -> Result<(), Refusal>
    ensures { outcome result ≡ sets_known tests drops loads }
{
    if drops == tests {
        if loads == tests {
            return Ok(());
        }
    }
    Err(Refusal::PlanRejected(drops.min(loads).min(tests)))
}

// The steps' wants, "the order giving the steps' tests", into the first entries of the list lent, as far as it has entries.
pub fn in_order(wants: &[u64], order: &[u16], steps: &mut [u64])
    ensures { steps.new ≡ sets steps.old 0 (in_order wants.now order.now) }
{
    for (i, t) in order.iter().enumerate() {
        lists::put(steps, i, lists::entry(wants, *t as usize));
    }
}

// The number of curves in all sets of a list together.
fn count_curves(sets: &[u64]) -> usize
    requires { length sets.now ≤ 256 }
    ensures { result ≡ curve_count sets.now }
{
    sets.iter().map(|s| bitset::size(*s)).sum()
}

// Whether a plan from anywhere keeps the rules, with so much held before its first step: its load count, or the first fault. "checking 8, 12", after 10, 13 and
// 14; 02, wish 1: "The check fails a plan whose end set is not what is held, with the number of tests as its step."
pub fn check_plan(
    rig: Rig,
    wants: &[u64],
    held: u64,
    order: &[u16],
    drops: &[u64],
    loads: &[u64],
    end: u64,
) -> Result<usize, Refusal>
    ensures { outcome result ≡ checking (job_of rig wants.now) held order.now (plan_of drops.now loads.now end) }
{
    job::examine_checking(rig, wants, held, order)?;
    let tests = wants.len();
    examine_sets(tests, drops.len(), loads.len())?;
    let mut steps = [0u64; job::MOST_TESTS];
    in_order(wants, order, &mut steps);
    let all = bitset::below(rig.curves);
    let capacity = job::capacity(rig);
    match drive::check_steps(capacity, all, held, &steps[..tests], drops, loads) {
        Err(i) => Err(Refusal::PlanRejected(i)),
        Ok(left) => {
            if end != left {
                return Err(Refusal::PlanRejected(tests));
            }
            Ok(count_curves(loads))
        }
    }
}

// Our plan for wants, a holding and an order that were examined before, into the first entries of the drops and loads lent; answers the load count and the end
// set. 10 for more than 256 tests, and 9.
pub fn plan_tests(
    capacity: usize,
    wants: &[u64],
    held: u64,
    order: &[u16],
    drops: &mut [u64],
    loads: &mut [u64],
) -> Result<CountEnd, Refusal>
    ensures answer { outcome result ≡ tests_answer capacity wants.now held order.now (set_lists drops.old loads.old) }
    ensures lists { set_lists drops.new loads.new ≡ tests_lists capacity wants.now held order.now (set_lists drops.old loads.old) }
{
    let tests = order.len();
    if job::MOST_TESTS < tests {
        return Err(Refusal::BadArgument(2));
    }
    if drops.len().min(loads.len()) < tests {
        return Err(Refusal::BufferTooSmall(tests));
    }
    let mut steps = [0u64; job::MOST_TESTS];
    in_order(wants, order, &mut steps);
    // 02, wish 1: the end step "drops all that is held".
    let end = drive::plan_steps(capacity, held, &steps[..tests], drops, loads);
    Ok(CountEnd {
        count: count_curves(&loads[..tests]),
        end,
    })
}

// Our plan for one job and one order of its tests, from the curves now held. "planning 8, 7, 9", after 10, 13 and 14.
pub fn plan(
    rig: Rig,
    wants: &[u64],
    held: u64,
    order: &[u16],
    drops: &mut [u64],
    loads: &mut [u64],
) -> Result<CountEnd, Refusal>
    ensures answer { outcome result ≡ plan_answer (job_of rig wants.now) held order.now (set_lists drops.old loads.old) }
    ensures lists { set_lists drops.new loads.new ≡ plan_lists (job_of rig wants.now) held order.now (set_lists drops.old loads.old) }
    ensures demand3 { Demand3 (job_of rig wants.now) held order.now (outcome result) (set_lists drops.new loads.new) }
{
    job::examine_planning(rig, wants, held, order)?;
    let capacity = job::capacity(rig);
    plan_tests(capacity, wants, held, order, drops, loads)
}
