#![tactic(auto)]
// A list of tests that is carried out step by step: 02, wish 7, "Look, then commit". The host looks at the next step, and commits it when the drive has moved.
ghost use Rattle.std.specs.Prelude.{◌≡◌, min};
ghost use Rattle.std.specs.Result.{result_unwrap_or};
ghost use Rattle.job.specs.Refusal.{outcome};
ghost use Rattle.job.specs.Words.{job_of};
ghost use Rattle.stepping.specs.Stepping.{look_at, is_done, held_behind, commit_at, look, commit, after_commit, making, nothing, state_made};

use drive::Sets;
use job::{Refusal, Rig};

// Where a list stands, 02's "state": how many curves the drive can hold, those it holds, how many steps were committed, the end step among them, and the wants
// of the steps in their order, in the first of so many entries as there are tests.
// Kept: an array with the number of its entries: fixed memory; every state may be looked at, also one whose number is beyond its entries.
#[derive(Clone, Copy)]
pub struct State {
    pub capacity: usize,
    pub held: u64,
    pub committed: usize,
    pub tests: usize,
    pub wants: [u64; 256],
}

// The next step, as a look shows it: that of a test, the end step with its drops, or none. They are told apart, since a test's step may have no drops and loads
// and has to be committed all the same.
#[derive(Clone, Copy)]
pub enum NextStep {
    Step(Sets),
    End(u64),
    Done,
}

// ---- steps whose wants stand in a list

// The next step at a position, with so much held.
pub fn look_at(capacity: usize, held: u64, position: usize, wants: &[u64]) -> NextStep
    ensures { result ≡ look_at capacity held position wants.now }
{
    let tests = wants.len();
    if position < tests {
        let next = position + 1;
        return NextStep::Step(drive::step(capacity, held, wants[position], &wants[next..]));
    }
    if tests < position {
        return NextStep::Done;
    }
    if held == 0 {
        return NextStep::Done;
    }
    NextStep::End(held)
}

// Whether a look says done.
fn is_done(look: NextStep) -> bool
    ensures { result ≡ is_done look }
{
    match look {
        NextStep::Step(_) => false,
        NextStep::End(_) => false,
        NextStep::Done => true,
    }
}

// What is held when a step is carried out.
pub fn held_behind(held: u64, look: NextStep) -> u64
    ensures { result ≡ held_behind held look }
{
    match look {
        NextStep::Step(sets) => drive::moved(held, sets),
        NextStep::End(drops) => bitset::without(held, drops),
        NextStep::Done => held,
    }
}

// What the commit of a position answers, where so many steps are committed. 15: "a commit whose position is not the next one, or after done".
pub fn commit_at(
    capacity: usize,
    held: u64,
    committed: usize,
    wants: &[u64],
    position: usize,
) -> Result<NextStep, Refusal>
    ensures { outcome result ≡ commit_at capacity held committed wants.now position }
{
    if position == committed {
        let next = look_at(capacity, held, committed, wants);
        if !is_done(next) {
            return Ok(next);
        }
    }
    Err(Refusal::NotNext(committed))
}

// ---- states

// How many entries of a state's wants are steps.
pub fn steps_of(tests: usize) -> usize
    ensures { result ≡ min tests 256 }
{
    tests.min(job::MOST_TESTS)
}

// Makes a state of a list, an order of its tests and the curves held. "refused as in planning": 10, 13, 14, 8, 7. In the place of a state that is refused stands,
// for `state_or_done`, one that is done.
pub fn make_state(rig: Rig, wants: &[u64], held: u64, order: &[u16]) -> Result<State, Refusal>
    ensures answer { outcome result ≡ making (job_of rig wants.now) held order.now }
    ensures state { result_unwrap_or result nothing ≡ state_made (making (job_of rig wants.now) held order.now) }
{
    job::examine_planning(rig, wants, held, order)?;
    let mut steps = [0u64; 256];
    planning::in_order(wants, order, &mut steps);
    Ok(State {
        capacity: job::capacity(rig),
        held,
        committed: 0,
        tests: wants.len(),
        wants: steps,
    })
}

// The state that was made; in the place of one that was refused, one that is done.
pub fn state_or_done(made: Result<State, Refusal>) -> State
    ensures { result ≡ state_made (outcome made) }
{
    made.unwrap_or(State {
        capacity: 0,
        held: 0,
        committed: 0,
        tests: 0,
        wants: [0; 256],
    })
}

// The next step.
pub fn look(state: &State) -> NextStep
    ensures { result ≡ look state.now }
{
    let end = steps_of(state.tests);
    look_at(
        state.capacity,
        state.held,
        state.committed,
        &state.wants[..end],
    )
}

// Carries out the step at a position, and answers it. 15, which leaves the state as it was.
pub fn commit(state: &mut State, position: usize) -> Result<NextStep, Refusal>
    ensures answer { outcome result ≡ commit state.old position }
    ensures state { state.new ≡ after_commit state.old position }
{
    let end = steps_of(state.tests);
    let done = state.committed;
    let step = commit_at(
        state.capacity,
        state.held,
        done,
        &state.wants[..end],
        position,
    )?;
    state.held = held_behind(state.held, step);
    state.committed = done + 1;
    Ok(step)
}
