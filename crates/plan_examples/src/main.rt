#![tactic(auto)]
// Document 01's examples of plans and orders, and two of 02, run; each answer is proved to be the paper's.
ghost use Rattle.std.specs.Prelude.{◌≡◌, true, ℕ, Ok, Err, get_or, replicate};
ghost use Rattle.job.specs.Refusal.{done, refused};
ghost use Rattle.job.specs.Words.{job_of};
ghost use Rattle.planning.specs.declared.CountEnd.{CountEnd};
ghost use Rattle.planning.specs.Plan.{set_lists};
ghost use Rattle.planning.specs.Planning.{plan_answer, plan_lists};

use job::Rig;
use stepping::NextStep;

// Drives of 64 curves: with two places, and with three.
const TWO_PLACES: Rig = Rig {
    places: 2,
    booked: 0,
    curves: 64,
};

const THREE_PLACES: Rig = Rig {
    places: 3,
    booked: 0,
    curves: 64,
};

// What planning comes to: the load count and what one step drops, or the number and the figure of a refusal. The lists lent hold the same number in each entry.
fn planned<const N: usize, const M: usize>(
    rig: Rig,
    wants: [u64; N],
    held: u64,
    order: [u16; M],
    lent: u64,
    step: usize,
) -> Result<(usize, u64), (u64, u64)>
    ensures done { (a : CountEnd) → plan_answer (job_of rig wants.entry) held order.entry (set_lists (replicate N lent) (replicate N lent)) ≡ done a
        → result ≡ Ok (a.count, get_or (plan_lists (job_of rig wants.entry) held order.entry (set_lists (replicate N lent) (replicate N lent))).drops step 0) }
    ensures refused { (number figure : ℕ)
        → plan_answer (job_of rig wants.entry) held order.entry (set_lists (replicate N lent) (replicate N lent)) ≡ refused number figure
        → result ≡ Err (number, figure) }
{
    let mut drops = [lent; N];
    let mut loads = [lent; N];
    match planning::plan(rig, &wants, held, &order, &mut drops, &mut loads) {
        Ok(plan) => Ok((plan.count, lists::entry(&drops, step))),
        Err(r) => Err((job::number_of(r), job::figure_of(r))),
    }
}

// "Wants {0} {1} {2} {0}, 2 places: step 2 drops 1; 3 loads."
fn furthest_use() -> bool
    ensures { result ≡ true }
{
    planned(TWO_PLACES, [1, 2, 4, 1], 0, [0, 1, 2, 3], 0, 2) == Ok((3, 2))
}

// "Wants {0,1} {0,2} {0,2}, 2 places: step 2 drops nothing; 3 loads."
fn nothing_dropped() -> bool
    ensures { result ≡ true }
{
    planned(TWO_PLACES, [3, 5, 5], 0, [0, 1, 2], 9, 2) == Ok((3, 0))
}

// "One test wanting three curves: .. 3 places, 3 loads."
fn just_fits() -> bool
    ensures { result ≡ true }
{
    planned(THREE_PLACES, [7], 0, [0], 0, 0) == Ok((3, 0))
}

// "One test wanting three curves: 2 places 7 at 0"
fn too_large() -> bool
    ensures { result ≡ true }
{
    planned(TWO_PLACES, [7], 0, [0], 0, 0) == Err((7, 0))
}

// "Order 0 1 1 .. for three tests: 8 at 2."
fn repeated_test() -> bool
    ensures { result ≡ true }
{
    planned(TWO_PLACES, [1, 2, 4], 0, [0, 1, 1], 0, 0) == Err((8, 2))
}

// "Order .. 0 1 for three tests: 8 at 2."
fn missing_test() -> bool
    ensures { result ≡ true }
{
    planned(TWO_PLACES, [1, 2, 4], 0, [0, 1], 0, 0) == Err((8, 2))
}

// 02, wish 6: the rest {3} {0,4} {3,4}, with 0 1 2 3 held and two of four places booked: step 0 drops 1 and 2; 2 loads.
fn from_halfway() -> bool
    ensures { result ≡ true }
{
    let rig = Rig {
        places: 4,
        booked: 2,
        curves: 6,
    };
    planned(rig, [8, 17, 24], 15, [0, 1, 2], 0, 0) == Ok((2, 6))
}

// 02, wish 7: job A step by step. When step 0 is committed, a look shows that step 1 drops 0 and loads 2.
fn look_behind_commit() -> bool
    ensures { result ≡ true }
{
    let wants = [3u64, 6, 3, 8];
    let order = [0u16, 1, 2, 3];
    let rig = Rig {
        places: 2,
        booked: 0,
        curves: 4,
    };
    let made = stepping::make_state(rig, &wants, 0, &order);
    let mut state = stepping::state_or_done(made);
    let Ok(_) = stepping::commit(&mut state, 0) else {
        return false;
    };
    match stepping::look(&state) {
        NextStep::Step(sets) => sets.drops == 1 && sets.loads == 4,
        NextStep::End(_) => false,
        NextStep::Done => false,
    }
}

fn main() {
    check::expect(furthest_use());
    check::expect(nothing_dropped());
    check::expect(just_fits());
    check::expect(too_large());
    check::expect(repeated_test());
    check::expect(missing_test());
    check::expect(from_halfway());
    check::expect(look_behind_commit());
}
