#![tactic(auto)]
// Plan bytes: written, read, and one step fetched by its position.
ghost use Rattle.std.specs.Prelude.{◌≡◌, [], ◌∷◌, ◌++◌, ℕ, ◌+◌, ◌-◌, ◌*◌, ◌≤◌, ◌<◌, length, get_or, drop};
ghost use Rattle.std.proofs.lemmas.List.Edits.{sets};
ghost use Rattle.job_bytes.specs.SetBytes.{stands, read_groups};
ghost use Rattle.job.specs.Refusal.{done, mapped, outcome, fitting, leaves};
ghost use Rattle.job.specs.Words.{job_of};
ghost use Rattle.planning.specs.Plan.{plan_of, set_lists, steps};
ghost use Rattle.plan_bytes.specs.PlanBytes.{set_field, step_bytes, steps_bytes, end_bytes, plan_bytes, write_plan_answer, write_plan_buffer};
ghost use Rattle.plan_bytes.specs.PlanBytes.{tests_of, plan_in, read_set, read_step, read_end, read_plan_bytes, plan_steps};
ghost use Rattle.plan_bytes.specs.PlanBytes.{read_plan_answer, read_plan_order, read_plan_lists, fetched, or_empty, step_part, step_at};
ghost use Rattle.plan_bytes.specs.ContractWords.{set_outcome, step_outcome, write_steps_answer, write_steps_buffer};

use job::{Refusal, Rig, examine_counts, examine_order_alone};
use job_bytes::set_bytes::{put_front, put_set_at, read_due};
use planning::{CountEnd, check_plan, examine_sets};

// A set that was read, and the position behind it.
#[derive(Clone, Copy)]
struct SetRead {
    set: u64,
    next: usize,
}

// A step that was read, and the position behind it.
#[derive(Clone, Copy)]
struct StepRead {
    test: u16,
    drops: u64,
    loads: u64,
    next: usize,
}

// The groups of a set, behind its group map.
fn read_groups(plan: &[u8], start: usize, groups: u8, curves: usize) -> Result<SetRead, Refusal>
    requires { (curves ≤ 64) × (start ≤ length plan.now) }
    ensures { set_outcome plan.now result ≡ read_groups 11 11 11 curves 8 0 groups 0 start (drop start plan.now) }
{
    let mut next = start;
    let mut set: u64 = 0;
    for j in 0..8 {
        match read_due(plan, next, groups, j, curves) {
            Ok(group) => {
                set = set | group;
                next += ((groups >> j) % 2) as usize;
            }
            Err(_) => {
                return Err(Refusal::BadPlanBytes(next));
            }
        }
    }
    Ok(SetRead { set, next })
}

// The bit is a number, as the rule reads it (`read_set`).
// A set, if its bit stands: "A set is written as a group map and group bytes, neither zero."
#[tactic(auto, using(crate::proofs::Reading::set_cases), unfolding(crate::specs::ContractWords::set_outcome))]
fn read_set(plan: &[u8], at: usize, stands: u8, curves: usize) -> Result<SetRead, Refusal>
    requires { curves ≤ 64 }
    ensures { (tests : ℕ) → set_outcome plan.now result ≡ read_set curves tests stands at (drop at plan.now) }
{
    if stands == 0 {
        return Ok(SetRead { set: 0, next: at });
    }
    if plan.len() <= at {
        return Err(Refusal::BadPlanBytes(at));
    }
    if plan[at] == 0 {
        return Err(Refusal::BadPlanBytes(at));
    }
    read_groups(plan, at + 1, plan[at], curves)
}

// One step: a map, then the drops, the loads and the test. "Bit 2 always stands." "A test or curve that the job lacks is malformed".
fn read_step(plan: &[u8], at: usize, curves: usize, tests: usize) -> Result<StepRead, Refusal>
    requires { curves ≤ 64 }
    ensures { step_outcome plan.now at result ≡ read_step curves tests at (drop at plan.now) }
{
    if plan.len() <= at {
        return Err(Refusal::BadPlanBytes(at));
    }
    let fields = plan[at];
    if fields < 4 {
        return Err(Refusal::BadPlanBytes(at));
    }
    if 7 < fields {
        return Err(Refusal::BadPlanBytes(at));
    }
    let drops = read_set(plan, at + 1, fields % 2, curves)?;
    let loads = read_set(plan, drops.next, (fields >> 1) % 2, curves)?;
    let last = loads.next;
    if plan.len() <= last {
        return Err(Refusal::BadPlanBytes(last));
    }
    let test = plan[last];
    if tests <= test as usize {
        return Err(Refusal::BadPlanBytes(last));
    }
    Ok(StepRead {
        test: test as u16,
        drops: drops.set,
        loads: loads.set,
        next: last + 1,
    })
}

// 02, wish 1: behind the last test the end step, or nothing: "bits 1 and 2 clear, bit 0 set". Nothing stands behind it. The end set, 0 for none.
fn read_end(plan: &[u8], at: usize, curves: usize) -> Result<u64, Refusal>
    requires { curves ≤ 64 }
    ensures { (tests : ℕ) → outcome result ≡ read_end curves tests at (drop at plan.now) }
{
    if plan.len() <= at {
        return Ok(0);
    }
    if plan[at] != 1 {
        return Err(Refusal::BadPlanBytes(at));
    }
    let end = read_set(plan, at + 1, 1, curves)?;
    if end.next < plan.len() {
        return Err(Refusal::BadPlanBytes(end.next));
    }
    Ok(end.set)
}

// 11: the steps, "as many steps as tests", and what stands behind them.
fn examine_steps(curves: usize, tests: usize, plan: &[u8]) -> Result<u64, Refusal>
    requires { curves ≤ 64 }
    ensures { outcome result ≡ mapped (λ c. c.end) (read_plan_bytes curves tests plan.now) }
{
    let mut at: usize = 0;
    for _ in 0..tests {
        let step = read_step(plan, at, curves, tests)?;
        at = step.next;
    }
    read_end(plan, at, curves)
}

// 10 and 11: whether the bytes are a plan of so many curves and tests, and its end set.
fn examine_plan(curves: usize, tests: usize, plan: &[u8]) -> Result<u64, Refusal>
    ensures { outcome result ≡ mapped (λ c. c.end) (plan_steps curves tests plan.now) }
{
    examine_counts(curves, tests)?;
    examine_steps(curves, tests, plan)
}

// Writes the steps of a plan that reads, which was seen before: an entry of each list for each step. "Nothing lent changes under a refusal".
fn fill_lists(
    curves: usize,
    tests: usize,
    plan: &[u8],
    order: &mut [u16],
    drops: &mut [u64],
    loads: &mut [u64],
)
    requires counts { (curves ≤ 64) × (tests ≤ length order.old) × (tests ≤ length drops.old) × (tests ≤ length loads.old) }
    requires reads { mapped (λ _. tt) (read_plan_bytes curves tests plan.now) ≡ done (tt {0}) }
    ensures tests { order.new ≡ leaves (mapped tests_of (read_plan_bytes curves tests plan.now)) order.old }
    ensures drops { drops.new ≡ leaves (mapped (λ c. (plan_in c).drops) (read_plan_bytes curves tests plan.now)) drops.old }
    ensures loads { loads.new ≡ leaves (mapped (λ c. (plan_in c).loads) (read_plan_bytes curves tests plan.now)) loads.old }
{
    let mut at: usize = 0;
    for k in 0..tests {
        // never an error: the plan reads
        let step = read_step(plan, at, curves, tests).unwrap();
        order[k] = step.test;
        drops[k] = step.drops;
        loads[k] = step.loads;
        at = step.next;
    }
}

// Reads plan bytes; on success the steps' tests, drops and loads stand at the fronts of the three lists, and their number is answered with the end set.
pub fn read_plan(
    curves: usize,
    tests: usize,
    plan: &[u8],
    order: &mut [u16],
    drops: &mut [u64],
    loads: &mut [u64],
) -> Result<CountEnd, Refusal>
    ensures answer { outcome result ≡ read_plan_answer curves tests plan.now order.old (set_lists drops.old loads.old) }
    ensures order { order.new ≡ read_plan_order curves tests plan.now order.old (set_lists drops.old loads.old) }
    ensures lists { set_lists drops.new loads.new ≡ read_plan_lists curves tests plan.now order.old (set_lists drops.old loads.old) }
{
    let end = examine_plan(curves, tests, plan)?;
    let shortest = order.len().min(drops.len()).min(loads.len());
    if shortest < tests {
        return Err(Refusal::BufferTooSmall(tests));
    }
    fill_lists(curves, tests, plan, order, drops, loads);
    Ok(CountEnd { count: tests, end })
}

// A part of the plan bytes: where it begins, and how many bytes it has.
#[repr(C)]
#[derive(Clone, Copy)]
pub struct StepPart {
    pub start: usize,
    pub count: usize,
}

// Where the step at a position lies in the bytes of a plan that reads; else at their end, and empty. The end step goes from behind the last test to the end.
fn find_step(curves: usize, tests: usize, plan: &[u8], position: usize) -> StepPart
    requires { curves ≤ 64 }
    ensures part { result ≡ or_empty plan.now (fetched plan.now position (read_plan_bytes curves tests plan.now)) }
    ensures inside { result.start + result.count ≤ length plan.now }
{
    let size = plan.len();
    let mut start = size;
    let mut count: usize = 0;
    let mut at: usize = 0;
    for i in 0..tests {
        match read_step(plan, at, curves, tests) {
            Err(_) => {
                return StepPart {
                    start: size,
                    count: 0,
                };
            }
            Ok(step) => {
                if i == position {
                    start = at;
                    count = step.next - at;
                }
                at = step.next;
            }
        }
    }
    match read_end(plan, at, curves) {
        Err(_) => StepPart {
            start: size,
            count: 0,
        },
        Ok(end) => {
            if position == tests {
                if end != 0 {
                    return StepPart {
                        start: at,
                        count: size - at,
                    };
                }
            }
            StepPart { start, count }
        }
    }
}

// Where the step at a position lies, or the end of the bytes: "the plan has no such step, its bytes would get refusal 11, or the handed counts are out of
// range".
pub fn step_part(curves: usize, tests: usize, plan: &[u8], position: usize) -> StepPart
    ensures part { result ≡ step_part curves tests plan.now position }
    ensures inside { result.start + result.count ≤ length plan.now }
{
    match examine_counts(curves, tests) {
        Err(_) => StepPart {
            start: plan.len(),
            count: 0,
        },
        Ok(()) => find_step(curves, tests, plan, position),
    }
}

// "A step's bytes can be fetched by position: the answer is that part of the caller's plan bytes, or the empty part at their end".
pub fn step_bytes(curves: usize, tests: usize, plan: &[u8], position: usize) -> &[u8]
    ensures bytes { result.now ≡ step_at curves tests plan.now position }
    ensures block { result.ref_ptr.0 ≡ plan.entry.ref_ptr.0 }
    ensures place { result.ref_ptr.1 ≡ (step_part curves tests plan.now position).start + plan.entry.ref_ptr.1 }
{
    let part = step_part(curves, tests, plan, position);
    let start = part.start;
    let end = start + part.count;
    &plan[start..end]
}

// Writes a set of a step from `to` on, nothing if it is empty, and a zero byte behind it that the next is written over; answers where it ends.
fn put_field(s: u64, to: usize, out: &mut [u8]) -> usize
    requires { to + 10 ≤ length out.old }
    ensures end { result ≡ to + length (set_field s) }
    ensures bytes { out.new ≡ sets out.old to (set_field s ++ (0 ∷ [])) }
{
    if s == 0 {
        out[to] = 0;
        return to;
    }
    put_set_at(s, to, out)
}

// The bit map of a step: "0 drops, 1 loads, 2 test". "Bit 2 always stands."
fn step_map(drops: u64, loads: u64) -> u8
    ensures { result ≡ stands drops + 2 * stands loads + 4 }
{
    let mut fields: u8 = 4;
    if drops != 0 {
        fields += 1;
    }
    if loads != 0 {
        fields += 2;
    }
    fields
}

// Writes a step from `to` on, and answers where it ends. "The test is one byte."
fn put_step(test: u16, drops: u64, loads: u64, to: usize, out: &mut [u8]) -> usize
    requires { (test < 256) × (to + 20 ≤ length out.old) }
    ensures end { result ≡ to + length (step_bytes (record { test = test; drops = drops; loads = loads })) }
    ensures bytes { out.new ≡ sets out.old to (step_bytes (record { test = test; drops = drops; loads = loads })) }
{
    out[to] = step_map(drops, loads);
    let behind = put_field(drops, to + 1, out);
    let last = put_field(loads, behind, out);
    out[last] = test as u8;
    last + 1
}

// Kept: the tests, drops and loads of the steps are three lent slices (document 01, Forms) from here up to the calls.
// Writes the steps of a plan to the beginning of `out`, and answers how many bytes they take.
fn put_steps(order: &[u16], drops: &[u64], loads: &[u64], out: &mut [u8]) -> usize
    requires tests { (i : ℕ) → i < length order.now → get_or order.now i 0 < 256 }
    requires sets { (length drops.now ≡ length order.now) × (length loads.now ≡ length order.now) }
    requires fits { 20 * length order.now ≤ length out.old }
    ensures count { result ≡ length (steps_bytes (steps order.now drops.now loads.now)) }
    ensures bytes { out.new ≡ sets out.old 0 (steps_bytes (steps order.now drops.now loads.now)) }
{
    let mut to: usize = 0;
    for i in 0..order.len() {
        to = put_step(order[i], drops[i], loads[i], to, out);
    }
    to
}

// Writes the end step from `to` on, nothing if the end set is empty, and a zero byte behind it; answers where it ends: "bits 1 and 2 clear, bit 0 set".
fn put_end(end: u64, to: usize, out: &mut [u8]) -> usize
    requires { to + 11 ≤ length out.old }
    ensures end { result ≡ to + length (end_bytes end) }
    ensures bytes { out.new ≡ sets out.old to (end_bytes end ++ (0 ∷ [])) }
{
    if end == 0 {
        out[to] = 0;
        return to;
    }
    out[to] = 1;
    put_set_at(end, to + 1, out)
}

// Writes a plan to the beginning of `out`, a zero byte behind it, and answers how many bytes it takes.
fn put_plan(order: &[u16], drops: &[u64], loads: &[u64], end: u64, out: &mut [u8]) -> usize
    requires tests { (i : ℕ) → i < length order.now → get_or order.now i 0 < 256 }
    requires sets { (length drops.now ≡ length order.now) × (length loads.now ≡ length order.now) }
    requires fits { 20 * length order.now + 11 ≤ length out.old }
    ensures count { result ≡ length (plan_bytes order.now (plan_of drops.now loads.now end)) }
    ensures bytes { out.new ≡ sets out.old 0 (plan_bytes order.now (plan_of drops.now loads.now end) ++ (0 ∷ [])) }
{
    let to = put_steps(order, drops, loads, out);
    put_end(end, to, out)
}

// The bytes that a plan takes at most: 1 + 9 + 9 + 1 for each step and 1 + 9 for the end step. One more stands behind them.
const MOST_BYTES: usize = 20 * job::MOST_TESTS + 10 + 1;

// Writes the bytes of the steps and the end step to `out`, if they fit, and answers their count.
fn write_fitting(
    order: &[u16],
    drops: &[u64],
    loads: &[u64],
    end: u64,
    out: &mut [u8],
) -> Result<usize, Refusal>
    requires tests { (i : ℕ) → i < length order.now → get_or order.now i 0 < 256 }
    requires sets { (length drops.now ≡ length order.now) × (length loads.now ≡ length order.now) }
    requires few { length order.now ≤ 256 }
    ensures answer { outcome result ≡ mapped length (fitting (plan_bytes order.now (plan_of drops.now loads.now end)) (length out.old)) }
    ensures bytes { out.new ≡ leaves (fitting (plan_bytes order.now (plan_of drops.now loads.now end)) (length out.old)) out.old }
{
    // "Nothing lent changes under a refusal": the bytes go to a buffer of our own, and are copied once their number is known to fit
    let mut bytes = [0u8; MOST_BYTES];
    let need = put_plan(order, drops, loads, end, &mut bytes);
    if out.len() < need {
        return Err(Refusal::BufferTooSmall(need));
    }
    put_front(&bytes[..need], out);
    Ok(need)
}

// Writes a plan that passes the check from what is held as plan bytes, and answers their count: "writing a plan 8, 12, 9", after 10, 13 and 14.
pub fn write_plan(
    rig: Rig,
    wants: &[u64],
    held: u64,
    order: &[u16],
    drops: &[u64],
    loads: &[u64],
    end: u64,
    out: &mut [u8],
) -> Result<usize, Refusal>
    ensures answer { outcome result ≡ write_plan_answer (job_of rig wants.now) held order.now (plan_of drops.now loads.now end) out.old }
    ensures bytes { out.new ≡ write_plan_buffer (job_of rig wants.now) held order.now (plan_of drops.now loads.now end) out.old }
{
    check_plan(rig, wants, held, order, drops, loads, end)?;
    write_fitting(order, drops, loads, end, out)
}

// Writes the steps of lists that were made here and an end set, without the check, and answers the count of their bytes: 10, 8, 12 and 9 of the lists alone.
pub fn write_steps(
    order: &[u16],
    drops: &[u64],
    loads: &[u64],
    end: u64,
    out: &mut [u8],
) -> Result<usize, Refusal>
    ensures answer { outcome result ≡ write_steps_answer order.now (plan_of drops.now loads.now end) out.old }
    ensures bytes { out.new ≡ write_steps_buffer order.now (plan_of drops.now loads.now end) out.old }
{
    examine_order_alone(order)?;
    examine_sets(order.len(), drops.len(), loads.len())?;
    write_fitting(order, drops, loads, end, out)
}
