#![tactic(auto)]
// The job of a rig: its head, the refusals, and the examination of handed numbers and lists.
ghost use Rattle.std.specs.Prelude.{◌≡◌, ◌≤◌, length};
ghost use Rattle.job.specs.Refusal.{number, figure, outcome};
ghost use Rattle.job.specs.Words.{job_of, capacity};
ghost use Rattle.job.specs.Handed.{between, is_method, numbers_known, wants_known, wants_fit, booked_known, booked_below, held_known, job_known_by, counts_known};
ghost use Rattle.job.specs.Order.{order_known};
ghost use Rattle.job.specs.Calls.{ordering_known, checking_known, planning_known, order_alone_known, sizing_known};

// "Places in the drive 1 to 64. Curves 1 to 64, numbered from 0. Tests 1 to 256, numbered from 0.", and since wish 3 of 02 a list may have no tests.
pub const MOST_PLACES: usize = 64;

pub const MOST_CURVES: usize = 64;

pub const MOST_TESTS: usize = 256;

// 02, wish 5: "booked places, 1..63, absent 0".
pub const MOST_BOOKED: usize = 63;

// The methods are 0 to 3, but for 2, which old job files may still have (02, wish 8).
const LAST_METHOD: usize = 3;

pub const OLD_METHOD: usize = 2;

// Why a call is refused: the rows of document 01's table in its order, each with the figure that is returned beside its number, and those of 02 behind them.
// Row 5 is withdrawn (02, wish 3). The comment gives the table's own word.
#[derive(Clone, Copy)]
pub enum Refusal {
    // 1, cut
    Truncated(usize),
    // 2, head
    BadHeader(usize),
    // 3, hollow group
    EmptyGroup(usize),
    // 4, foreign curve
    UnknownCurve(usize),
    // 6, surplus
    TrailingBytes(usize),
    // 7, too wide
    TestTooLarge(usize),
    // 8, order
    BadOrder(usize),
    // 9, short
    BufferTooSmall(usize),
    // 10, handed number
    BadArgument(usize),
    // 11, plan bytes
    BadPlanBytes(usize),
    // 12, plan check
    PlanRejected(usize),
    // 13, "booked not below places"
    TooManyBooked(usize),
    // 14, "a held curve that the job doesn't have"
    UnknownHeld(usize),
    // 15, "a commit whose position is not the next one, or after done"
    NotNext(usize),
}

// The number of a refusal in document 01's table.
pub fn number_of(r: Refusal) -> u64
    ensures { result ≡ number r }
{
    match r {
        Refusal::Truncated(_) => 1,
        Refusal::BadHeader(_) => 2,
        Refusal::EmptyGroup(_) => 3,
        Refusal::UnknownCurve(_) => 4,
        Refusal::TrailingBytes(_) => 6,
        Refusal::TestTooLarge(_) => 7,
        Refusal::BadOrder(_) => 8,
        Refusal::BufferTooSmall(_) => 9,
        Refusal::BadArgument(_) => 10,
        Refusal::BadPlanBytes(_) => 11,
        Refusal::PlanRejected(_) => 12,
        Refusal::TooManyBooked(_) => 13,
        Refusal::UnknownHeld(_) => 14,
        Refusal::NotNext(_) => 15,
    }
}

// The figure that goes with it.
pub fn figure_of(r: Refusal) -> u64
    ensures { result ≡ figure r }
{
    match r {
        Refusal::Truncated(i)
        | Refusal::BadHeader(i)
        | Refusal::EmptyGroup(i)
        | Refusal::UnknownCurve(i)
        | Refusal::TrailingBytes(i)
        | Refusal::TestTooLarge(i)
        | Refusal::BadOrder(i)
        | Refusal::BufferTooSmall(i)
        | Refusal::BadArgument(i)
        | Refusal::BadPlanBytes(i)
        | Refusal::PlanRejected(i)
        | Refusal::TooManyBooked(i)
        | Refusal::UnknownHeld(i)
        | Refusal::NotNext(i) => i as u64,
    }
}

// What a rig offers a list of tests: the places of its drive, how many of them the drive keeps for its own prefetching, and the number of curves.
#[derive(Clone, Copy)]
pub struct Rig {
    pub places: usize,
    pub booked: usize,
    pub curves: usize,
}

// How many curves the drive can hold: "places less booked".
pub fn capacity(rig: Rig) -> usize
    ensures { result ≡ capacity rig }
{
    if rig.places < rig.booked {
        return 0;
    }
    rig.places - rig.booked
}

// The numbers of a job's bytes.
// Kept: the method is a number: 10 at place 3 is asked of every number that is handed over (`IsMethod`), and C hands one over.
#[derive(Clone, Copy)]
pub struct Head {
    pub rig: Rig,
    pub tests: usize,
    pub method: usize,
}

// ---- 10 and 13

// "Places in the drive 1 to 64. Curves 1 to 64".
fn in_bounds(x: usize, most: usize) -> bool
    ensures { result ≡ between 1 most x }
{
    if x < 1 { false } else { x <= most }
}

// 10, of curves and a number of tests.
pub fn examine_counts(curves: usize, tests: usize) -> Result<(), Refusal>
    ensures { outcome result ≡ counts_known curves tests }
{
    if !in_bounds(curves, MOST_CURVES) {
        return Err(Refusal::BadArgument(1));
    }
    if MOST_TESTS < tests {
        return Err(Refusal::BadArgument(2));
    }
    Ok(())
}

// "10 in its own order": as far as the number of tests.
fn examine_numbers(rig: Rig, tests: usize) -> Result<(), Refusal>
    ensures { outcome result ≡ numbers_known rig tests }
{
    if !in_bounds(rig.places, MOST_PLACES) {
        return Err(Refusal::BadArgument(0));
    }
    examine_counts(rig.curves, tests)
}

// The methods: 0 as listed, 1 reverse Cuthill-McKee, 3 packages.
fn is_method(method: usize) -> bool
    ensures { result ≡ is_method method }
{
    if method == OLD_METHOD {
        false
    } else {
        method <= LAST_METHOD
    }
}

// 10, 4 + t: "wants of test t name a foreign curve".
fn examine_wants(curves: usize, wants: &[u64]) -> Result<(), Refusal>
    requires { (curves ≤ 64) × (length wants.now ≤ 256) }
    ensures { outcome result ≡ wants_known curves wants.now }
{
    let all = bitset::below(curves);
    for (t, want) in wants.iter().enumerate() {
        if !bitset::inside(*want, all) {
            return Err(Refusal::BadArgument(4 + t));
        }
    }
    Ok(())
}

// 13: "booked not below places", with the figure that goes with it.
pub fn examine_capacity(rig: Rig, figure: usize) -> Result<(), Refusal>
    ensures { outcome result ≡ booked_below rig figure }
{
    if rig.booked < rig.places {
        return Ok(());
    }
    Err(Refusal::TooManyBooked(figure))
}

// Of the booked places: 10, its last, then 13.
fn examine_booked(rig: Rig) -> Result<(), Refusal>
    ensures { outcome result ≡ booked_known rig }
{
    if MOST_BOOKED < rig.booked {
        return Err(Refusal::BadArgument(260));
    }
    examine_capacity(rig, 0)
}

// Kept: the rig and the wants are two arguments here and in all calls that take both: wants are a lent slice (document 01, Forms), no fact joins the two before
// they are examined, and a struct of both would be built for each call and taken apart in it.
// 10 and 13, of a job and a method: what writing a job is handed. With method 0, of a job alone.
pub fn examine_job(rig: Rig, method: usize, wants: &[u64]) -> Result<(), Refusal>
    ensures { outcome result ≡ job_known_by method (job_of rig wants.now) }
{
    examine_numbers(rig, wants.len())?;
    if !is_method(method) {
        return Err(Refusal::BadArgument(3));
    }
    examine_wants(rig.curves, wants)?;
    examine_booked(rig)
}

// ---- 14, 7 and 8

// 14: "a held curve that the job doesn't have, with the lowest such curve".
fn examine_held(curves: usize, held: u64) -> Result<(), Refusal>
    requires { curves ≤ 64 }
    ensures { outcome result ≡ held_known curves held }
{
    let unknown = bitset::without(held, bitset::below(curves));
    if unknown == 0 {
        return Ok(());
    }
    Err(Refusal::UnknownHeld(bitset::lowest(unknown)))
}

// 7: "a test wants more curves than places", with the lowest such test; `most` is what the drive can hold.
pub fn examine_sizes(most: usize, wants: &[u64]) -> Result<(), Refusal>
    ensures { outcome result ≡ wants_fit most wants.now }
{
    for (t, want) in wants.iter().enumerate() {
        if most < bitset::size(*want) {
            return Err(Refusal::TestTooLarge(t));
        }
    }
    Ok(())
}

// 7, of a rig: by places less booked.
fn examine_fit(rig: Rig, wants: &[u64]) -> Result<(), Refusal>
    ensures { outcome result ≡ wants_fit (capacity rig) wants.now }
{
    let most = capacity(rig);
    examine_sizes(most, wants)
}

// 8: "first position with a number out of range or seen before, or first missing or surplus position, the smaller".
fn examine_order(tests: usize, order: &[u16]) -> Result<(), Refusal>
    requires { tests ≤ 256 }
    ensures { outcome result ≡ order_known tests order.now }
{
    let mut seen = [false; MOST_TESTS];
    for (i, test) in order.iter().enumerate() {
        if tests <= i {
            return Err(Refusal::BadOrder(i));
        }
        let t = *test as usize;
        if tests <= t {
            return Err(Refusal::BadOrder(i));
        }
        if seen[t] {
            return Err(Refusal::BadOrder(i));
        }
        seen[t] = true;
    }
    if order.len() < tests {
        return Err(Refusal::BadOrder(order.len()));
    }
    Ok(())
}

// ---- what the other calls are handed

// Of what ordering is handed: 10, 13, 7.
pub fn examine_ordering(rig: Rig, method: usize, wants: &[u64]) -> Result<(), Refusal>
    ensures { outcome result ≡ ordering_known method (job_of rig wants.now) }
{
    examine_job(rig, method, wants)?;
    examine_fit(rig, wants)
}

// Of what the plan check is handed, but for the plan: 10, 13, 14, 8.
pub fn examine_checking(rig: Rig, wants: &[u64], held: u64, order: &[u16]) -> Result<(), Refusal>
    ensures { outcome result ≡ checking_known (job_of rig wants.now) held order.now }
{
    examine_job(rig, 0, wants)?;
    examine_held(rig.curves, held)?;
    examine_order(wants.len(), order)
}

// Of what planning is handed: 10, 13, 14, 8, 7.
pub fn examine_planning(rig: Rig, wants: &[u64], held: u64, order: &[u16]) -> Result<(), Refusal>
    ensures { outcome result ≡ planning_known (job_of rig wants.now) held order.now }
{
    examine_checking(rig, wants, held, order)?;
    examine_fit(rig, wants)
}

// Of an order alone, for as many tests as it has entries: 10, 8.
pub fn examine_order_alone(order: &[u16]) -> Result<(), Refusal>
    ensures { outcome result ≡ order_alone_known order.now }
{
    if MOST_TESTS < order.len() {
        return Err(Refusal::BadArgument(2));
    }
    examine_order(order.len(), order)
}

// Of what the walk for every drive size is handed, 02, wish 9: 10, 8.
pub fn examine_sizing(curves: usize, wants: &[u64], order: &[u16]) -> Result<(), Refusal>
    ensures { outcome result ≡ sizing_known curves wants.now order.now }
{
    examine_counts(curves, wants.len())?;
    examine_wants(curves, wants)?;
    examine_order(wants.len(), order)
}
