#![tactic(auto)]
// One drive: what a step drops and loads, all steps, and the check of steps. It knows no jobs, refusals and bytes.
ghost use Rattle.std.specs.Prelude.{◌≡◌, ℕ, ◌+◌, ◌≤◌, ◌<◌, length, get_or, drop, Some};
ghost use Rattle.std.proofs.lemmas.List.Edits.{sets};
ghost use Rattle.drive.specs.Steps.{moved, held_after, drops_of, loads_of, moves};
ghost use Rattle.drive.specs.Check.{keeps, check_from};
ghost use Rattle.drive.specs.Plan.{furthest, next, plan_from};
ghost use Rattle.drive.specs.Steps.{together};

pub mod choice;

use choice::Groups;

// What a step drops and loads.
#[derive(Clone, Copy)]
pub struct Sets {
    pub drops: u64,
    pub loads: u64,
}

// What is held after a step: "the drops leave, the loads enter".
pub fn moved(held: u64, sets: Sets) -> u64
    ensures { result ≡ moved held sets }
{
    bitset::union(bitset::without(held, sets.drops), sets.loads)
}

// ---- our plan

// The next step of our plan, with `held` in the drive, for a test that wants `want` and later ones that want `later`: "Load what is wanted and not held."
// `used` is what the later ones want together, where that is known. In `groups` the candidates are noted.
fn step_with(
    capacity: usize,
    held: u64,
    want: u64,
    used: Option<u64>,
    later: &[u64],
    groups: &mut Groups,
) -> Sets
    requires { (u : ℕ) → used ≡ Some u → u ≡ together later.now }
    ensures { result ≡ next (furthest 64) capacity held want later.now }
{
    Sets {
        drops: choice::drops_with(capacity, held, want, used, later, groups),
        loads: bitset::without(want, held),
    }
}

// The same step by itself.
pub fn step(capacity: usize, held: u64, want: u64, later: &[u64]) -> Sets
    ensures { result ≡ next (furthest 64) capacity held want later.now }
{
    let mut groups = Groups::new();
    step_with(capacity, held, want, None, later, &mut groups)
}

// Writes for each step what the steps after it want together, as far as the list has entries.
pub fn write_later(wants: &[u64], list: &mut [u64])
    ensures by_index { (i : ℕ) → i < length wants.now → i < length list.old → get_or list.new i 0 ≡ together (drop (i + 1) wants.now) }
    ensures by_index_2 { (i : ℕ) → length wants.now ≤ i → get_or list.new i 0 ≡ get_or list.old i 0 }
{
    let mut all: u64 = 0;
    for i in (0..wants.len()).rev() {
        lists::put(list, i, all);
        all = bitset::union(wants[i], all);
    }
}

// All steps of our plan, with `start` held before the first: what is held at the end. Their drops and loads go into the first entries of the lists lent, as far
// as these have entries. At first the list of loads has what the steps after each want together; an entry is read before its step's loads are written there.
pub fn plan_steps(
    capacity: usize,
    start: u64,
    wants: &[u64],
    drops: &mut [u64],
    loads: &mut [u64],
) -> u64
    ensures ends { result ≡ held_after start (plan_from (furthest 64) capacity start wants.now) }
    ensures dropped { drops.new ≡ sets drops.old 0 (drops_of (plan_from (furthest 64) capacity start wants.now)) }
    ensures loaded { loads.new ≡ sets loads.old 0 (loads_of (plan_from (furthest 64) capacity start wants.now)) }
{
    write_later(wants, loads);
    let mut groups = Groups::new();
    let mut held = start;
    for (i, want) in wants.iter().enumerate() {
        let used = loads.get(i).copied();
        let sets = step_with(capacity, held, *want, used, &wants[i + 1..], &mut groups);
        lists::put(drops, i, sets.drops);
        lists::put(loads, i, sets.loads);
        held = moved(held, sets);
    }
    held
}

// ---- the check

// Whether a step keeps the rules: "every drop is held, no load is held after the drops, every load is a curve of the job, and after the loads the drive
// holds the test's wants and at most its places".
fn keeps(capacity: usize, all: u64, held: u64, want: u64, sets: Sets) -> bool
    ensures { result ≡ keeps capacity all held (record { want = want; sets = sets }) }
{
    let kept = bitset::without(held, sets.drops);
    let after = bitset::union(kept, sets.loads);
    bitset::inside(sets.drops, held)
        && bitset::common(sets.loads, kept) == 0
        && bitset::inside(sets.loads, all)
        && bitset::inside(want, after)
        && bitset::size(after) <= capacity
}

// The check of steps from anywhere, with `start` held before the first and the curves `all` in the job: what is held at the end, or the first step that breaks
// a rule. Where a list has no entry for a step, the step has no drops or loads.
pub fn check_steps(
    capacity: usize,
    all: u64,
    start: u64,
    wants: &[u64],
    drops: &[u64],
    loads: &[u64],
) -> Result<u64, usize>
    ensures { result ≡ check_from capacity all 0 start (moves wants.now drops.now loads.now) }
{
    let mut held = start;
    for (i, want) in wants.iter().enumerate() {
        let sets = Sets {
            drops: lists::entry(drops, i),
            loads: lists::entry(loads, i),
        };
        if !keeps(capacity, all, held, *want, sets) {
            return Err(i);
        }
        held = moved(held, sets);
    }
    Ok(held)
}
