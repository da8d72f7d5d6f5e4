// Which curves a step drops.
ghost use Rattle.std.specs.Prelude.{◌≡◌, List, ℕ, ◌+◌, ◌^◌, ◌≤◌, ◌<◌, Some};
ghost use Rattle.bitset.specs.Set.{◌∖◌, size, bit};
ghost use Rattle.drive.specs.Uses.{further};
ghost use Rattle.drive.specs.Plan.{furthest, victims, drops_for};
ghost use Rattle.drive.specs.Steps.{together};
ghost use Rattle.drive.specs.ContractWords.{Grouped, UsedAt, GoesFirst};

// Document 01: "its next use, which is a later step or never". At(0) is the step after the present one.
// Kept: an enum of its own: document 01 names this form, with these variants.
#[derive(Clone, Copy)]
pub enum NextUse {
    At(usize),
    Never,
}

// "Every candidate curve goes with its next use."
#[derive(Clone, Copy)]
pub struct Candidate {
    pub curve: usize,
    pub next: NextUse,
}

// Candidates in so many groups by their next use, the soonest first: what is in each, and the step that uses it.
// Kept: two lists, and not one of pairs: tried, a plan took 4% longer.
#[derive(Drop)]
pub(crate) struct Groups {
    curves: [u64; 64],
    steps: [usize; 64],
    count: usize,
    ghost few: { count ≤ 64 },
}

// Whether the next use of `a` is further than that of `b`: "never is furthest".
fn further(a: Candidate, b: Candidate) -> bool
    ensures { result ≡ further a.next b.next }
{
    match (a.next, b.next) {
        (_, NextUse::Never) => false,
        (NextUse::Never, NextUse::At(_)) => true,
        (NextUse::At(m), NextUse::At(n)) => n < m,
    }
}

// ---- curves with the same next use

// Kept: a walk by `without_lowest`: document 01, Forms, has the tie choice by trailing zeros; with `bitset::elements` a plan took up to 4% longer.
// The one that goes first, "the highest number": the last that a walk from the lowest comes to.
fn first_to_go(same: u64) -> usize
    ensures member { 0 < same → bit result same ≡ 1 }
    ensures highest { (c : ℕ) → bit c same ≡ 1 → c ≤ result }
{
    let mut left = same;
    let mut higher = bitset::without_lowest(left);
    while higher != 0 {
        left = higher;
        higher = bitset::without_lowest(left);
    }
    bitset::lowest(left)
}

// Those that are left when so many have gone: the first that a walk from the lowest comes to.
fn left_after(same: u64, gone: usize) -> u64
    requires { gone ≤ size same }
    ensures counted { size result + gone ≡ size same }
    ensures part { (c : ℕ) → bit c result ≤ bit c same }
    ensures lower { (c d : ℕ) → bit c same ≡ 1 → bit c result ≡ 0 → bit d result ≡ 1 → d < c }
{
    let mut go = same;
    for _ in 0..bitset::size(same) - gone {
        go = bitset::without_lowest(go);
    }
    bitset::without(same, go)
}

// ---- the later steps

// What some steps want together.
fn together(wants: &[u64]) -> u64
    ensures { result ≡ together wants.now }
{
    wants.iter().fold(0, |all, want| bitset::union(all, *want))
}

// ---- the choice

// The candidate "whose next use in a later step is furthest": the first of those never used against the first of a group, whose next use is `step`.
fn furthest(never: u64, group: u64, step: usize) -> Candidate
    ensures of_never { (ws : List ℕ) → 0 < never → UsedAt NextUse.Never never ws → GoesFirst ws never result }
    ensures of_group { (ws : List ℕ) → never ≡ 0 → 0 < group → UsedAt (NextUse.At step) group ws → GoesFirst ws group result }
{
    let sooner = Candidate {
        curve: first_to_go(group),
        next: NextUse::At(step),
    };
    if never == 0 {
        return sooner;
    }
    let latest = Candidate {
        curve: first_to_go(never),
        next: NextUse::Never,
    };
    if further(latest, sooner) {
        return latest;
    }
    sooner
}

impl Groups {
    // No groups.
    pub(crate) fn new() -> Groups {
        Groups {
            curves: [0; 64],
            steps: [0; 64],
            count: 0,
        }
    }

    // The next use of every candidate, by one walk over the later steps. `used` is what these want together: the walk ends where each candidate that is used
    // again is found.
    fn find(&mut self, candidates: u64, used: u64, later: &[u64])
        requires { used ≡ together later.now }
        ensures { Grouped candidates (candidates ∖ used) self.new.count self.new.curves self.new.steps later.now }
    {
        let mut left = bitset::common(candidates, used);
        let mut count: usize = 0;
        let mut step: usize = 0;
        // Kept: a `while`: a `for` over the later steps tests for their end too: tried, a plan took 10 to 26% longer.
        while left != 0 {
            let group = bitset::common(left, later[step]);
            self.curves[count] = group;
            self.steps[count] = step;
            if group != 0 {
                count += 1;
            }
            left = bitset::without(left, group);
            step += 1;
        }
        self.count = count;
    }

    // So many of the candidates, "one by one: each time the curve whose next use in a later step is furthest". Where no group is left, those never used are
    // further than whatever stands in entry 0.
    fn drop_from_far(&self, excess: usize, unused: u64) -> u64
        ensures { (cs : ℕ) (ws : List ℕ) → Grouped cs unused self.now.count self.now.curves self.now.steps ws → cs < 2 ^ 64 → excess ≤ size cs
            → result ≡ victims (furthest 64) excess cs ws }
    {
        let mut chosen: u64 = 0;
        let mut count = self.count;
        for _ in 0..excess {
            let last = count.saturating_sub(1);
            let group = bitset::without(self.curves[last], chosen);
            let best = furthest(bitset::without(unused, chosen), group, self.steps[last]);
            let victim = bitset::single(best.curve);
            chosen = bitset::union(chosen, victim);
            if bitset::without(group, victim) == 0 {
                count = last;
            }
        }
        chosen
    }

    // The same drops, found by those that stay: whole groups from the near end, and of the last one those that go last.
    fn keep_from_near(&self, excess: usize, candidates: u64) -> u64
        requires { excess < size candidates }
        ensures { (unused : ℕ) (ws : List ℕ) → Grouped candidates unused self.now.count self.now.curves self.now.steps ws
            → result ≡ victims (furthest 64) excess candidates ws }
    {
        let mut left = candidates;
        for group in &self.curves[..self.count] {
            let behind = bitset::without(left, *group);
            let n = bitset::size(behind);
            if n <= excess {
                return bitset::without(left, left_after(bitset::common(left, *group), excess - n));
            }
            left = behind;
        }
        bitset::without(left, left_after(left, excess))
    }
}

// "If held and wanted curves together exceed the places, drop exactly the excess, from held curves that the test doesn't want"; where there are not more of
// these, as where the test alone exceeds the places, all of them. The drops are chosen one by one, or those that stay are counted off, where these or the
// groups are fewer. `used` is what the later steps want together, where that is known; in `groups` the candidates are noted.
pub(crate) fn drops_with(
    capacity: usize,
    held: u64,
    want: u64,
    used: Option<u64>,
    later: &[u64],
    groups: &mut Groups,
) -> u64
    requires { (u : ℕ) → used ≡ Some u → u ≡ together later.now }
    ensures { result ≡ drops_for (furthest 64) capacity held want later.now }
{
    let all = bitset::size(bitset::union(held, want));
    if all <= capacity {
        return 0;
    }
    let excess = all - capacity;
    let candidates = bitset::without(held, want);
    let size = bitset::size(candidates);
    if size <= excess {
        return candidates;
    }
    let used = used.unwrap_or_else(|| together(later));
    groups.find(candidates, used, later);
    if size - excess < excess || groups.count < excess {
        return groups.keep_from_near(excess, candidates);
    }
    groups.drop_from_far(excess, bitset::without(candidates, used))
}
