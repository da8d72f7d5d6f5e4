#![tactic(auto)]
// The functions of the library for C, and for tests in other languages. Each calls the function of its name, and answers numbers; one rule makes an outcome
// one number.
// Kept: numbers for outcomes, methods and truth, and arguments one by one: the C interface. A look and a commit work on the numbers that C lends, without a
// copy, by the two functions of `stepping` that take no state.
ghost use Rattle.std.specs.Prelude.{◌≡◌, reverse, ◌%◌, ◌^◌, min, length, eqb};
ghost use Rattle.std.specs.Int.Count.{count_trailing_zeros};
ghost use Rattle.bitset.specs.Set.{◌∩◌, ◌∪◌, ◌∖◌, size, bit, inside, below};
ghost use Rattle.job.specs.Refusal.{done, refused, number, figure, outcome, mapped, room, leaves};
ghost use Rattle.job.specs.Handed.{job_known, job_known_by, counts_known, wants_fit};
ghost use Rattle.job.specs.Words.{digit};
ghost use Rattle.job_bytes.specs.SetBytes.{group_map, set_bytes};
ghost use Rattle.job_bytes.specs.JobBytes.{read_job_answer, read_job_wants, write_job_answer, write_job_buffer};
ghost use Rattle.packages.specs.Tests.{up_to, entered};
ghost use Rattle.packages.specs.Packages.{packages};
ghost use Rattle.ordering.specs.Ordering.{order_answer, order_list};
ghost use Rattle.planning.specs.Plan.{plan_of, set_lists};
ghost use Rattle.planning.specs.Planning.{checking, plan_answer, plan_lists};
ghost use Rattle.stepping.specs.Stepping.{step_wants, look, commit, after_commit, making, tests_made};
ghost use Rattle.plan_bytes.specs.PlanBytes.{write_plan_answer, write_plan_buffer, read_plan_answer, read_plan_order, read_plan_lists, step_part};
ghost use Rattle.report.specs.Report.{sheet_answer, sheet_buffer};
ghost use Rattle.sizing.specs.Sizing.{sizing, fewest};
ghost use Rattle.report.specs.Audit.{audit_answer, audit_buffer};
ghost use Rattle.report.specs.SizeTable.{wanted_found, table_answer, table_buffer};
ghost use Rattle.exports.specs.Numbers.{rig_of, job, numbered, passing, count_of, end_of, head_of, group_at, leaves_one, leaves_counts, places_number, asks};
ghost use Rattle.exports.specs.States.{step_of, state_of, numbers_of, leaves_state};

use job::{Head, Refusal, Rig};
use job_bytes::set_bytes::GroupFault;
use plan_bytes::StepPart;
use planning::CountEnd;
use stepping::{NextStep, State};

// ---- outcomes as numbers

// 2^48
const SCALE: u64 = 281_474_976_710_656;

// A refusal: its number × 2^48 plus its figure.
fn refusal(r: Refusal) -> u64
    ensures { result ≡ numbered (refused (number r) (figure r)) }
{
    job::number_of(r) * SCALE + job::figure_of(r) % SCALE
}

// A count is itself.
fn counted(c: Result<usize, Refusal>) -> u64
    ensures { result ≡ numbered (outcome c) }
{
    match c {
        Ok(n) => n as u64,
        Err(r) => refusal(r),
    }
}

// The count; the end set goes to `end`.
fn with_end(c: Result<CountEnd, Refusal>, end: &mut u64) -> u64
    ensures answer { result ≡ numbered (count_of (outcome c)) }
    ensures end { end.new ≡ leaves_one (end_of (outcome c)) end.old }
{
    match c {
        Ok(answer) => {
            *end = answer.end;
            answer.count as u64
        }
        Err(r) => refusal(r),
    }
}

// 0 where the examination is passed.
fn examined(e: Result<(), Refusal>) -> u64
    ensures { result ≡ passing (outcome e) }
{
    match e {
        Ok(()) => 0,
        Err(r) => refusal(r),
    }
}

// ---- jobs, orders, plans, texts

// What reading a job answers: its number of tests or the refusal, and the five numbers of its head.
#[repr(C)]
#[derive(Clone, Copy)]
pub struct JobHead {
    pub answer: u64,
    pub places: usize,
    pub booked: usize,
    pub curves: usize,
    pub tests: usize,
    pub method: usize,
}

fn head_of(r: Result<Head, Refusal>) -> JobHead
    ensures { result ≡ head_of (outcome r) }
{
    match r {
        Ok(h) => JobHead {
            answer: h.tests as u64,
            places: h.rig.places,
            booked: h.rig.booked,
            curves: h.rig.curves,
            tests: h.tests,
            method: h.method,
        },
        Err(r) => JobHead {
            answer: refusal(r),
            places: 0,
            booked: 0,
            curves: 0,
            tests: 0,
            method: 0,
        },
    }
}

#[unsafe(no_mangle)]
pub extern "C" fn curveplan_read_job(job: &[u8], wants: &mut [u64]) -> JobHead
    ensures answer { result ≡ head_of (read_job_answer job.now wants.old) }
    ensures wants { wants.new ≡ read_job_wants job.now wants.old }
{
    head_of(job_bytes::read_job(job, wants))
}

// The rig of numbers that are handed over one by one.
fn rig(places: usize, booked: usize, curves: usize) -> Rig
    ensures { result ≡ rig_of places booked curves }
{
    Rig {
        places,
        booked,
        curves,
    }
}

#[unsafe(no_mangle)]
pub extern "C" fn curveplan_write_job(
    places: usize,
    booked: usize,
    curves: usize,
    method: usize,
    wants: &[u64],
    out: &mut [u8],
) -> u64
    ensures answer { result ≡ numbered (write_job_answer method (job places booked curves wants.now) out.old) }
    ensures bytes { out.new ≡ write_job_buffer method (job places booked curves wants.now) out.old }
{
    counted(job_bytes::write_job(rig(places, booked, curves), method, wants, out))
}

#[unsafe(no_mangle)]
pub extern "C" fn curveplan_order_tests(
    places: usize,
    booked: usize,
    curves: usize,
    method: usize,
    wants: &[u64],
    order: &mut [u16],
) -> u64
    ensures answer { result ≡ numbered (order_answer method (job places booked curves wants.now) order.old) }
    ensures order { order.new ≡ order_list method (job places booked curves wants.now) order.old }
{
    counted(ordering::order_tests(rig(places, booked, curves), method, wants, order))
}

#[unsafe(no_mangle)]
pub extern "C" fn curveplan_plan_order(
    places: usize,
    booked: usize,
    curves: usize,
    wants: &[u64],
    held: u64,
    order: &[u16],
    drops: &mut [u64],
    loads: &mut [u64],
    end: &mut u64,
) -> u64
    ensures answer { result ≡ numbered (count_of (plan_answer (job places booked curves wants.now) held order.now (set_lists drops.old loads.old))) }
    ensures lists { set_lists drops.new loads.new
        ≡ plan_lists (job places booked curves wants.now) held order.now (set_lists drops.old loads.old) }
    ensures end { end.new
        ≡ leaves_one (end_of (plan_answer (job places booked curves wants.now) held order.now (set_lists drops.old loads.old))) end.old }
{
    with_end(
        planning::plan(
            rig(places, booked, curves),
            wants,
            held,
            order,
            drops,
            loads,
        ),
        end,
    )
}

#[unsafe(no_mangle)]
pub extern "C" fn curveplan_check_plan(
    places: usize,
    booked: usize,
    curves: usize,
    wants: &[u64],
    held: u64,
    order: &[u16],
    drops: &[u64],
    loads: &[u64],
    end: u64,
) -> u64
    ensures { result ≡ numbered (checking (job places booked curves wants.now) held order.now (plan_of drops.now loads.now end)) }
{
    counted(planning::check_plan(
        rig(places, booked, curves),
        wants,
        held,
        order,
        drops,
        loads,
        end,
    ))
}

#[unsafe(no_mangle)]
pub extern "C" fn curveplan_write_plan(
    places: usize,
    booked: usize,
    curves: usize,
    wants: &[u64],
    held: u64,
    order: &[u16],
    drops: &[u64],
    loads: &[u64],
    end: u64,
    out: &mut [u8],
) -> u64
    ensures answer { result
        ≡ numbered (write_plan_answer (job places booked curves wants.now) held order.now (plan_of drops.now loads.now end) out.old) }
    ensures bytes { out.new
        ≡ write_plan_buffer (job places booked curves wants.now) held order.now (plan_of drops.now loads.now end) out.old }
{
    counted(plan_bytes::write_plan(
        rig(places, booked, curves),
        wants,
        held,
        order,
        drops,
        loads,
        end,
        out,
    ))
}

#[unsafe(no_mangle)]
pub extern "C" fn curveplan_read_plan(
    curves: usize,
    tests: usize,
    plan: &[u8],
    order: &mut [u16],
    drops: &mut [u64],
    loads: &mut [u64],
    end: &mut u64,
) -> u64
    ensures answer { result ≡ numbered (count_of (read_plan_answer curves tests plan.now order.old (set_lists drops.old loads.old))) }
    ensures order { order.new ≡ read_plan_order curves tests plan.now order.old (set_lists drops.old loads.old) }
    ensures lists { set_lists drops.new loads.new ≡ read_plan_lists curves tests plan.now order.old (set_lists drops.old loads.old) }
    ensures end { end.new
        ≡ leaves_one (end_of (read_plan_answer curves tests plan.now order.old (set_lists drops.old loads.old))) end.old }
{
    with_end(
        plan_bytes::read_plan(curves, tests, plan, order, drops, loads),
        end,
    )
}

// Where the step's bytes lie in the caller's plan.
#[unsafe(no_mangle)]
pub extern "C" fn curveplan_step_bytes(
    curves: usize,
    tests: usize,
    plan: &[u8],
    position: usize,
) -> StepPart
    ensures { result ≡ step_part curves tests plan.now position }
{
    plan_bytes::step_part(curves, tests, plan, position)
}

#[unsafe(no_mangle)]
pub extern "C" fn curveplan_sheet(job: &[u8], out: &mut [u8]) -> u64
    ensures answer { result ≡ numbered (sheet_answer job.now out.old) }
    ensures text { out.new ≡ sheet_buffer job.now out.old }
{
    counted(report::write_report(job, out))
}

#[unsafe(no_mangle)]
pub extern "C" fn curveplan_audit(job: &[u8], plan: &[u8], out: &mut [u8]) -> u64
    ensures answer { result ≡ numbered (audit_answer job.now plan.now out.old) }
    ensures text { out.new ≡ audit_buffer job.now plan.now out.old }
{
    counted(report::audit::write_audit(job, plan, out))
}

// ---- every drive size

// The load counts for 1 to 64 places go to `counts`, that for p places to entry p - 1.
#[unsafe(no_mangle)]
pub extern "C" fn curveplan_all_sizes(
    curves: usize,
    wants: &[u64],
    order: &[u16],
    counts: &mut [u16; 64],
) -> u64
    ensures answer { result ≡ passing (sizing curves wants.now order.now) }
    ensures counts { counts.new ≡ leaves_counts (sizing curves wants.now order.now) counts.old }
{
    match sizing::all_sizes(curves, wants, order) {
        Ok(made) => {
            *counts = made;
            0
        }
        Err(r) => refusal(r),
    }
}

// The fewest places that need no more loads, 1 to 64, or 0 for none.
#[unsafe(no_mangle)]
pub extern "C" fn curveplan_fewest_places(
    curves: usize,
    wants: &[u64],
    order: &[u16],
    loads: usize,
) -> u64
    ensures { result ≡ numbered (mapped places_number (fewest curves wants.now order.now loads)) }
{
    match sizing::fewest_places(curves, wants, order, loads) {
        Ok(Some(p)) => p as u64,
        Ok(None) => 0,
        Err(r) => refusal(r),
    }
}

// What is asked of a table: 0 for no wanted count.
fn wanted(asked: usize, loads: usize) -> Option<usize>
    ensures { wanted_found result ≡ asks asked loads }
{
    if asked == 0 { None } else { Some(loads) }
}

#[unsafe(no_mangle)]
pub extern "C" fn curveplan_size_table(
    job: &[u8],
    asked: usize,
    loads: usize,
    out: &mut [u8],
) -> u64
    ensures answer { result ≡ numbered (table_answer job.now (asks asked loads) out.old) }
    ensures text { out.new ≡ table_buffer job.now (asks asked loads) out.old }
{
    counted(report::sizes::write_size_table(job, wanted(asked, loads), out))
}

// ---- look, then commit

// What a look shows, and a commit answers: 0 for none, 1 for the step of a test, 2 for the end step, or the refusal; and the step's drops and loads.
#[repr(C)]
#[derive(Clone, Copy)]
pub struct StepShown {
    pub answer: u64,
    pub drops: u64,
    pub loads: u64,
}

fn shown(step: NextStep) -> StepShown
    ensures { result ≡ step_of (done step) }
{
    match step {
        NextStep::Step(sets) => StepShown {
            answer: 1,
            drops: sets.drops,
            loads: sets.loads,
        },
        NextStep::End(drops) => StepShown {
            answer: 2,
            drops,
            loads: 0,
        },
        NextStep::Done => StepShown {
            answer: 0,
            drops: 0,
            loads: 0,
        },
    }
}

fn answered(answer: Result<NextStep, Refusal>) -> StepShown
    ensures { result ≡ step_of (outcome answer) }
{
    match answer {
        Ok(step) => shown(step),
        Err(r) => StepShown {
            answer: refusal(r),
            drops: 0,
            loads: 0,
        },
    }
}

// Where the numbers of a state stand.
const CAPACITY: usize = 0;

const HELD: usize = 1;

const COMMITTED: usize = 2;

const TESTS: usize = 3;

const WANTS: usize = 4;

// Writes the numbers of a state.
fn put_state(state: &State, list: &mut [u64; 260])
    ensures { list.new ≡ numbers_of state.now }
{
    list[CAPACITY] = state.capacity as u64;
    list[HELD] = state.held;
    list[COMMITTED] = state.committed as u64;
    list[TESTS] = state.tests as u64;
    list[WANTS..].copy_from_slice(&state.wants);
}

#[unsafe(no_mangle)]
pub extern "C" fn curveplan_make_state(
    places: usize,
    booked: usize,
    curves: usize,
    wants: &[u64],
    held: u64,
    order: &[u16],
    state: &mut [u64; 260],
) -> u64
    ensures answer { result ≡ numbered (tests_made (making (job places booked curves wants.now) held order.now)) }
    ensures state { state.new ≡ leaves_state (making (job places booked curves wants.now) held order.now) state.old }
{
    match stepping::make_state(rig(places, booked, curves), wants, held, order) {
        Ok(made) => {
            put_state(&made, state);
            made.tests as u64
        }
        Err(r) => refusal(r),
    }
}

// The wants of the steps, where the numbers of a state stand.
fn step_wants(state: &[u64; 260]) -> &[u64]
    ensures { result.now ≡ step_wants (state_of state.now) }
{
    let end = WANTS + stepping::steps_of(state[TESTS] as usize);
    &state[WANTS..end]
}

fn look_in(state: &[u64; 260]) -> NextStep
    ensures { result ≡ look (state_of state.now) }
{
    stepping::look_at(
        state[CAPACITY] as usize,
        state[HELD],
        state[COMMITTED] as usize,
        step_wants(state),
    )
}

fn commit_in(state: &mut [u64; 260], position: usize) -> Result<NextStep, Refusal>
    ensures answer { outcome result ≡ commit (state_of state.old) position }
    ensures state { state.new ≡ numbers_of (after_commit (state_of state.old) position) }
{
    let held = state[HELD];
    let done = state[COMMITTED] as usize;
    let step = stepping::commit_at(
        state[CAPACITY] as usize,
        held,
        done,
        step_wants(state),
        position,
    )?;
    state[HELD] = stepping::held_behind(held, step);
    state[COMMITTED] = done as u64 + 1;
    Ok(step)
}

#[unsafe(no_mangle)]
pub extern "C" fn curveplan_look(state: &[u64; 260]) -> StepShown
    ensures { result ≡ step_of (done (look (state_of state.now))) }
{
    shown(look_in(state))
}

#[unsafe(no_mangle)]
pub extern "C" fn curveplan_commit(state: &mut [u64; 260], position: usize) -> StepShown
    ensures answer { result ≡ step_of (commit (state_of state.old) position) }
    ensures state { state.new ≡ numbers_of (after_commit (state_of state.old) position) }
{
    answered(commit_in(state, position))
}

// ---- the examinations

#[unsafe(no_mangle)]
pub extern "C" fn curveplan_examine(
    places: usize,
    booked: usize,
    curves: usize,
    wants: &[u64],
) -> u64
    ensures { result ≡ passing (job_known (job places booked curves wants.now)) }
{
    examined(job::examine_job(rig(places, booked, curves), 0, wants))
}

#[unsafe(no_mangle)]
pub extern "C" fn curveplan_examine_by(
    places: usize,
    booked: usize,
    curves: usize,
    method: usize,
    wants: &[u64],
) -> u64
    ensures { result ≡ passing (job_known_by method (job places booked curves wants.now)) }
{
    examined(job::examine_job(rig(places, booked, curves), method, wants))
}

#[unsafe(no_mangle)]
pub extern "C" fn curveplan_examine_counts(curves: usize, tests: usize) -> u64
    ensures { result ≡ passing (counts_known curves tests) }
{
    examined(job::examine_counts(curves, tests))
}

#[unsafe(no_mangle)]
pub extern "C" fn curveplan_examine_sizes(capacity: usize, wants: &[u64]) -> u64
    ensures { result ≡ passing (wants_fit capacity wants.now) }
{
    examined(job::examine_sizes(capacity, wants))
}

// ---- sets in bytes

// The curves of the group go to `set`.
#[unsafe(no_mangle)]
pub extern "C" fn curveplan_read_group(
    rest: &[u8],
    at: usize,
    group: usize,
    curves: usize,
    set: &mut u64,
) -> u64
    ensures answer { result ≡ passing (group_at rest.now at group curves) }
    ensures set { set.new ≡ leaves_one (group_at rest.now at group curves) set.old }
{
    match job_bytes::set_bytes::read_group(rest, at, group, curves) {
        Err(GroupFault::Owed) => SCALE,
        Err(GroupFault::Empty) => 2 * SCALE,
        Err(GroupFault::Unknown) => 3 * SCALE,
        Ok(s) => {
            *set = s;
            0
        }
    }
}

#[unsafe(no_mangle)]
pub extern "C" fn curveplan_group_map(s: u64) -> u64
    ensures { result ≡ group_map 8 s }
{
    job_bytes::set_bytes::group_map(s) as u64
}

#[unsafe(no_mangle)]
pub extern "C" fn curveplan_set_len(s: u64) -> u64
    ensures { result ≡ length (set_bytes s) }
{
    job_bytes::set_bytes::set_len(s) as u64
}

#[unsafe(no_mangle)]
pub extern "C" fn curveplan_put_set(s: u64, out: &mut [u8]) -> u64
    ensures count { result ≡ length (set_bytes s) }
    ensures bytes { out.new ≡ leaves (mapped (λ _. set_bytes s) (room (length out.old) (length (set_bytes s)))) out.old }
{
    job_bytes::set_bytes::put_set(s, out) as u64
}

// ---- sets

#[unsafe(no_mangle)]
pub extern "C" fn curveplan_size(s: u64) -> u64
    ensures { result ≡ size s }
{
    bitset::size(s) as u64
}

#[unsafe(no_mangle)]
pub extern "C" fn curveplan_lowest(s: u64) -> u64
    ensures { result ≡ count_trailing_zeros 64 s }
{
    bitset::lowest(s) as u64
}

#[unsafe(no_mangle)]
pub extern "C" fn curveplan_union(a: u64, b: u64) -> u64
    ensures { result ≡ a ∪ b }
{
    bitset::union(a, b)
}

#[unsafe(no_mangle)]
pub extern "C" fn curveplan_common(a: u64, b: u64) -> u64
    ensures { result ≡ a ∩ b }
{
    bitset::common(a, b)
}

#[unsafe(no_mangle)]
pub extern "C" fn curveplan_without(a: u64, b: u64) -> u64
    ensures { result ≡ a ∖ b }
{
    bitset::without(a, b)
}

#[unsafe(no_mangle)]
pub extern "C" fn curveplan_single(k: usize) -> u64
    ensures { result ≡ 2 ^ k % 2 ^ 64 }
{
    bitset::single(k)
}

#[unsafe(no_mangle)]
pub extern "C" fn curveplan_has(s: u64, k: usize) -> u64
    ensures { result ≡ digit (eqb (bit k s) 1) }
{
    u64::from(bitset::has(s, k))
}

#[unsafe(no_mangle)]
pub extern "C" fn curveplan_without_lowest(s: u64) -> u64
    ensures { result ≡ s ∖ 2 ^ count_trailing_zeros 64 s }
{
    bitset::without_lowest(s)
}

#[unsafe(no_mangle)]
pub extern "C" fn curveplan_inside(a: u64, b: u64) -> u64
    ensures { result ≡ digit (inside a b) }
{
    u64::from(bitset::inside(a, b))
}

#[unsafe(no_mangle)]
pub extern "C" fn curveplan_below(n: usize) -> u64
    ensures { result ≡ below (min n 64) }
{
    bitset::below(n)
}

// ---- lists of tests

#[unsafe(no_mangle)]
pub extern "C" fn curveplan_reverse(xs: &mut [u16])
    ensures { xs.new ≡ reverse xs.old }
{
    packages::reverse(xs);
}

#[unsafe(no_mangle)]
pub extern "C" fn curveplan_listed_order(tests: usize, order: &mut [u16])
    ensures { order.new ≡ entered (up_to tests) order.old }
{
    packages::listed_order(tests, order);
}

#[unsafe(no_mangle)]
pub extern "C" fn curveplan_package_order(capacity: usize, wants: &[u64], order: &mut [u16])
    ensures { order.new ≡ entered (packages capacity wants.now) order.old }
{
    packages::package_order(capacity, wants, order);
}
