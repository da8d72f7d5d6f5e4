#![tactic(auto)]
// Every drive size together: 02, wish 9. Drives nest: what a drive holds, a larger one holds too. So each curve has a slot, the number of places up to which no
// drive holds it (64 where none does), and one walk along the list keeps the slots of all curves.
ghost use Rattle.std.specs.Prelude.{◌≡◌, List, ◌∷◌, ℕ, ◌+◌, ◌-◌, ◌≤◌, ◌<◌, length, get_or, take, drop, leb};
ghost use Rattle.bitset.specs.Set.{◌∪◌, ◌∖◌, size, bit};
ghost use Rattle.every_size.specs.Sizes.{largest, or_mark, all_sizes, serves, fewest_places, size_found};
ghost use Rattle.drive.specs.Steps.{load_count, together};
ghost use Rattle.drive.specs.Plan.{furthest, plan_from};
ghost use Rattle.every_size.specs.ContractWords.{sum, holds_at, held_next, Slotted, Waiting, NextGroup, Placing};

// "the mark 65535, which no count reaches".
pub const MARK: u16 = 65_535;

// ---- one step

// Loads the wanted curves: each is loaded by every drive up to its slot, and then held by every drive. `loads[s]` counts the loads of curves with slot s.
fn load_wanted(want: u64, slots: &mut [usize; 64], loads: &mut [u16; 65])
    requires { ((c : ℕ) → get_or slots.old c 0 ≤ 64) × (sum loads.old + size want ≤ 65535) }
    ensures loaded { (p hold : ℕ) → ((c : ℕ) → bit c want ≡ 1 → bit c hold ≡ holds_at (get_or slots.old c 0) p)
        → sum (drop p loads.new) ≡ sum (drop p loads.old) + size (want ∖ hold) }
    ensures wanted { (c : ℕ) → bit c want ≡ 1 → get_or slots.new c 0 ≡ 0 }
    ensures others { (c : ℕ) → bit c want ≡ 0 → get_or slots.new c 0 ≡ get_or slots.old c 0 }
{
    for c in bitset::elements(want) {
        let s = slots[c];
        loads[s] += 1;
        slots[c] = 0;
    }
}

// Gives the curves of a group, the lowest first, each the lowest free slot that is not below its own; answers the slots that are free then.
fn place_group(group: u64, free: u64, slots: &mut [usize; 64]) -> u64
    ensures { (hold : ℕ → ℕ) (w seen others placed : ℕ) (ws before : List ℕ) → Waiting hold w seen others ws before
        → NextGroup others placed group ws → Placing hold w others placed free ws before slots.old
        → Placing hold w others (placed ∪ group) result ws before slots.new }
{
    let mut vacant = free;
    for c in bitset::elements(group) {
        let s = bitset::lowest(bitset::without(vacant, bitset::below(slots[c])));
        slots[c] = s;
        vacant = bitset::without(vacant, bitset::single(s));
    }
    vacant
}

// Gives the other curves new slots, those with the soonest next use first, behind as many slots as curves are wanted: one walk over the later steps, which ends
// where each of them is found. Answers the slots that are free then.
fn place_others(wanted: usize, others: u64, later: &[u64], slots: &mut [usize; 64]) -> u64
    requires { (c : ℕ) → bit c others ≤ bit c (together later.now) }
    ensures { (hold : ℕ → ℕ) (w seen : ℕ) → wanted ≡ size w → Waiting hold w seen others later.now slots.old
        → Placing hold w others others result later.now slots.old slots.new }
{
    let mut free = bitset::without(bitset::below(64), bitset::below(wanted));
    let mut left = others;
    let mut k: usize = 0;
    // Kept: a `while`: a `for` over the later steps tests for their end too: tried, the counts of all sizes took 20 to 35% longer.
    while left != 0 {
        let group = bitset::common(left, later[k]);
        free = place_group(group, free, slots);
        left = bitset::without(left, group);
        k += 1;
    }
    free
}

// One step, whose test wants `want`, before later ones that want `later`, and `used` together; so far some step wanted each curve of `seen`.
fn step(
    want: u64,
    seen: u64,
    used: u64,
    later: &[u64],
    slots: &mut [usize; 64],
    loads: &mut [u16; 65],
)
    requires used { used ≡ together later.now }
    requires room { ((c : ℕ) → get_or slots.old c 0 ≤ 64) × (sum loads.old + size want ≤ 65535) }
    ensures slotted { (hold : ℕ → ℕ) → Slotted hold seen (want ∷ later.now) slots.old
        → Slotted (held_next hold want later.now) (seen ∪ want) later.now slots.new }
    ensures loaded { (hold : ℕ → ℕ) → Slotted hold seen (want ∷ later.now) slots.old → (p : ℕ) → 1 ≤ p → p ≤ 64
        → sum (drop p loads.new) ≡ sum (drop p loads.old) + size (want ∖ hold p) }
    ensures more { sum loads.new ≡ sum loads.old + size want }
{
    load_wanted(want, slots, loads);
    let others = bitset::common(bitset::without(seen, want), used);
    place_others(bitset::size(want), others, later, slots);
}

// ---- the walk

// The loads of the whole list, by the slots that the curves had when they were loaded.
fn loads_by_slot(wants: &[u64]) -> [u16; 65]
    requires { length wants.now ≤ 256 }
    ensures counted { (p : ℕ) → 1 ≤ p → p ≤ 64 → sum (drop p result) ≡ load_count (plan_from (furthest 64) p 0 wants.now) }
    ensures small { sum result ≤ 16384 }
{
    let mut laters = [0u64; 256];
    drive::write_later(wants, &mut laters);
    let mut slots = [64usize; 64];
    let mut loads = [0u16; 65];
    let mut seen: u64 = 0;
    for (i, want) in wants.iter().enumerate() {
        step(
            *want,
            seen,
            laters[i],
            &wants[i + 1..],
            &mut slots,
            &mut loads,
        );
        seen = bitset::union(seen, *want);
    }
    loads
}

// How many curves the largest of the tests wants.
fn largest(wants: &[u64]) -> usize
    ensures { result ≡ largest wants.now }
{
    wants
        .iter()
        .map(|want| bitset::size(*want))
        .max()
        .unwrap_or(0)
}

// The entries of all sizes: the drive with p places makes the loads of slots from p on, or has the mark where it is too small.
fn entries(most: usize, loads: &[u16; 65]) -> [u16; 64]
    requires { sum loads.now ≤ 16384 }
    ensures { (p : ℕ) → 1 ≤ p → p ≤ 64 → get_or result (p - 1) 0 ≡ or_mark (leb most p) (sum (drop p loads.now)) }
{
    let mut counts = [MARK; 64];
    let mut total: u16 = 0;
    for p in (1..=64).rev() {
        total += loads[p];
        if most <= p {
            counts[p - 1] = total;
        }
    }
    counts
}

// "For one order from an empty drive give the load counts for 1 to 64 places in one walk along the list": that for p places in entry p - 1, of the first 256
// steps.
pub fn all_sizes(wants: &[u64]) -> [u16; 64]
    ensures { result ≡ all_sizes 64 (take 256 wants.now) }
{
    let steps = &wants[..wants.len().min(256)];
    let loads = loads_by_slot(steps);
    entries(largest(steps), &loads)
}

// Whether a size with this entry needs no more loads, "a marked size never serving".
fn serves(loads: usize, entry: u16) -> bool
    ensures { result ≡ serves loads entry }
{
    if entry == MARK {
        return false;
    }
    entry as usize <= loads
}

// "for a wanted count, give the fewest places that need no more loads, a marked size never serving, or none": of the entries for 1, 2, .. places.
pub fn fewest_places(entries: &[u16], loads: usize) -> Option<usize>
    ensures { size_found result ≡ fewest_places loads entries.now }
{
    entries
        .iter()
        .position(|entry| serves(loads, *entry))
        .map(|at| at + 1)
}
