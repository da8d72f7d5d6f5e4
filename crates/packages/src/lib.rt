#![tactic(auto)]
// Method 3 of "Orders": packages with both rounds, heads, tails and flipping. The packages lie one behind the other in a list of tests. Beside it stand the
// length of each package, its curves, how many these are, and its rating. What a package has in common with others is counted for all of them at once.
ghost use Rattle.std.specs.Prelude.{◌≡◌, cond, List, ◌++◌, map, sum, reverse, ℕ, suc, ◌+◌, ◌-◌, ◌^◌, ◌≤◌, ◌<◌, length, get_or, take, drop, ltb};
ghost use Rattle.std.specs.Iterator.{AlwaysYields, IsFinite};
ghost use Rattle.bitset.specs.Set.{◌∪◌, size};
ghost use Rattle.job.specs.Refusal.{overwritten};
ghost use Rattle.lists.specs.Choice.{nobody, best_of};
ghost use Rattle.packages.specs.Tests.{common, up_to, entered};
ghost use Rattle.packages.specs.Packages.{shared, eligible, closer, best_pair, curves_of, joined, run_from, head, tail, flipped, packages};
ghost use Rattle.packages.specs.ContractWords.{at, turned, joined_entry, joined_curves, join_by, round_of, Laid};
ghost use Rattle.packages.specs.ContractWords.{within, with_partner, score_with, named, unrated, Rated, AllRated, lone_of, moved_up};

// Two places in the list of packages.
#[derive(Clone, Copy)]
pub struct PackagePair {
    pub first: usize,
    pub second: usize,
}

// What is known of a package: its partner, the package behind it that would be the best second one of a pair with it, and its score, one more than the number
// of curves that the two have in common. With no partner, or where it is not known yet, no package behind it gives a higher score.
// Kept: the partner is 0 where there is none. Tried, slower: with an Option the order of 256 tests takes a fifth longer (`renew_behind` is no vector code).
#[derive(Clone, Copy)]
struct Rating {
    pub score: u16,
    pub partner: u16,
}

// A way to join two packages: how many curves the parts that meet have in common, and which of the two packages are reversed.
#[derive(Clone, Copy)]
pub struct Meeting {
    pub common: usize,
    pub first: bool,
    pub second: bool,
}

// What packages are chosen by: their curves, how many these are, and the bound of a pair's union.
#[derive(Clone, Copy)]
struct Table<'a> {
    bound: usize,
    curves: &'a [u64],
    sizes: &'a [usize],
    ghost few: { length curves.now ≤ 256 },
    ghost small: { (k : ℕ) → get_or curves.now k 0 < 2 ^ 64 },
    ghost sized: { sizes.now ≡ map size curves.now },
}

// Kept: `flipping` chooses in two methods, as the rules `join_by` and `round_of` do: a round with a type of its own would say the same in more words.
// A round: whether packages are joined with flipping, the wants of the tests, and the places.
#[derive(Clone, Copy)]
struct Round<'a> {
    flipping: bool,
    wants: &'a [u64],
    places: usize,
    // each want is a set of curves below 64
    ghost small: { (t : ℕ) → get_or wants.now t 0 < 2 ^ 64 },
}

// No partner, and no score.
const UNRATED: Rating = Rating {
    score: 0,
    partner: 0,
};

// How many curves two sets have in common.
fn shared(a: u64, b: u64) -> usize
    ensures { result ≡ common a b }
{
    bitset::size(a & b)
}

impl Meeting {
    // The way in which parts with these curves meet.
    fn of(a: u64, b: u64, first: bool, second: bool) -> Meeting
        ensures { result ≡ record { common = common a b; first = first; second = second } }
    {
        Meeting {
            common: shared(a, b),
            first,
            second,
        }
    }

    // "the earliest with most common curves wins": the earlier, unless the later has more.
    fn or_more(self, later: Meeting) -> Meeting
        ensures { result ≡ cond (ltb self.common later.common) later self }
    {
        if self.common < later.common {
            later
        } else {
            self
        }
    }
}

// Reverses a list in place.
pub fn reverse(xs: &mut [u16])
    ensures { xs.new ≡ reverse xs.old }
{
    xs.reverse();
}

fn reverse_if(turn: bool, xs: &mut [u16])
    ensures { xs.new ≡ turned turn xs.old }
{
    if turn {
        reverse(xs);
    }
}

// Exchanges the first k entries and the rest, in place: the reverse of two reversed parts.
// Kept: tried, `rotate_left` keeps 4 kB on the stack, and a host in C is promised that a call takes less than 25 kB.
fn exchange(xs: &mut [u16], k: usize)
    requires { k ≤ length xs.old }
    ensures { xs.new ≡ drop k xs.old ++ take k xs.old }
{
    reverse(&mut xs[..k]);
    reverse(&mut xs[k..]);
    reverse(xs);
}

// The number of tests in packages of these lengths.
fn total(lengths: &[usize]) -> usize
    requires { sum lengths.now ≤ 256 }
    ensures { result ≡ sum lengths.now }
{
    lengths.iter().sum()
}

// Sets the first's entry and takes the second's out; those behind it move up.
fn join_entry<T: Copy>(xs: &mut [T], pair: PackagePair, value: T)
    requires { (pair.first < length xs.old) × (pair.second < length xs.old) }
    ensures { take (length xs.old - 1) xs.new ≡ joined_entry xs.old pair.first pair.second value }
{
    xs[pair.first] = value;
    xs.copy_within(pair.second + 1.., pair.second);
}

// Writes how many curves a set has in common with each of the others.
fn write_common(set: u64, others: &[u64], counts: &mut [u16])
    requires { length others.now ≤ length counts.old }
    ensures { counts.new ≡ overwritten (map (common set) others.now) counts.old }
{
    for (j, other) in others.iter().enumerate() {
        counts[j] = u64::count_ones(set & *other) as u16;
    }
}

// What the package k has in common with itself and with each package behind it, each count in that package's place.
fn count_behind(curves: &[u64], counts: &mut [u16], k: usize)
    requires { (k < length curves.now) × (length curves.now ≤ length counts.old) }
    ensures { (j : ℕ) → k ≤ j → j < length curves.now → get_or counts.new j 0 ≡ common (get_or curves.now k 0) (get_or curves.now j 0) }
{
    write_common(curves[k], &curves[k..], &mut counts[k..]);
}

// The place of the highest score, "ties to the earlier first".
fn highest(ratings: &[Rating]) -> usize
    ensures most { (k : ℕ) → (get_or ratings.now k unrated).score ≤ (get_or ratings.now result unrated).score }
    ensures earliest { (k : ℕ) → k < result → (get_or ratings.now k unrated).score < (get_or ratings.now result unrated).score }
{
    let mut first: usize = 0;
    let mut most: u16 = 0;
    for (i, rating) in ratings.iter().enumerate() {
        if most < rating.score {
            first = i;
            most = rating.score;
        }
    }
    first
}

impl Rating {
    // The rating where the partner is none any more.
    fn lone(self) -> Rating
        ensures { result ≡ lone_of self }
    {
        Rating {
            score: self.score,
            partner: 0,
        }
    }

    // The rating of another package after a join: the second package is no partner any more, and those behind it move up by one.
    fn moved(self, second: usize) -> Rating
        ensures { result ≡ moved_up second self }
    {
        let partner = self.partner as usize;
        if partner == second {
            return self.lone();
        }
        if second < partner {
            Rating {
                score: self.score,
                partner: self.partner - 1,
            }
        } else {
            self
        }
    }

    // The rating of a package before the joined one, by what the two have in common. The joined one may be its partner, where it fits: with a higher score than
    // before, or with the same as a partner behind it.
    fn renewed(self, fits: bool, both: u16, pair: PackagePair) -> Rating
        requires { (pair.first < pair.second) × (pair.first < 256) × (both ≤ 64) }
        ensures { (bound row : ℕ) (cs ds : List ℕ) → row < pair.first → pair.second ≤ length ds → length cs ≡ suc (length ds)
            → ds ≡ joined_curves cs pair.first pair.second
            → fits ≡ within bound (get_or ds row 0 ∪ get_or ds pair.first 0) → both ≡ shared ds (at row pair.first)
            → Rated (within bound) cs row self → Rated (within bound) ds row result }
    {
        let kept = if self.partner as usize == pair.first {
            self.lone()
        } else {
            self.moved(pair.second)
        };
        if !fits {
            return kept;
        }
        let joined = Rating {
            score: 1 + both,
            partner: pair.first as u16,
        };
        if kept.score < joined.score {
            return joined;
        }
        if joined.score < kept.score {
            return kept;
        }
        if pair.first < kept.partner as usize {
            joined
        } else {
            kept
        }
    }
}

// The ratings of the packages behind the joined one.
fn renew_behind(ratings: &mut [Rating], pair: PackagePair)
    requires { pair.first < length ratings.old }
    ensures behind { (k : ℕ) → pair.first < k → k < length ratings.old
        → get_or ratings.new k unrated ≡ moved_up pair.second (get_or ratings.old k unrated) }
    ensures before { (k : ℕ) → k ≤ pair.first → get_or ratings.new k unrated ≡ get_or ratings.old k unrated }
{
    for rating in ratings[pair.first + 1..].iter_mut() {
        *rating = rating.moved(pair.second);
    }
}

impl Table<'_> {
    // Whether the union of two packages is at most the bound, by the sizes of the two and of what they have in common.
    fn fits(&self, i: usize, j: usize, both: u16) -> bool
        requires within { (i < length self.now.curves.now) × (j < length self.now.curves.now) }
        requires both { both ≡ shared self.now.curves.now (at i j) }
        ensures { result ≡ within self.now.bound (get_or self.now.curves.now i 0 ∪ get_or self.now.curves.now j 0) }
    {
        self.sizes[i] + self.sizes[j] - both as usize <= self.bound
    }

    // The rating of a package, whose partner gives "the pair with most common curves; ties to .. the earlier second package". It has none where no union is at
    // most the bound.
    fn best_partner(&self, counts: &mut [u16; 256], first: usize) -> Rating
        requires { first < length self.now.curves.now }
        ensures partner { best_of (eligible (within self.now.bound) self.now.curves.now) (closer self.now.curves.now) (at first)
            (length self.now.curves.now) nobody ≡ with_partner first result.partner }
        ensures score { result.score ≡ score_with self.now.curves.now first result.partner }
    {
        count_behind(self.curves, counts, first);
        let mut best = UNRATED;
        for j in first + 1..self.curves.len() {
            let score = 1 + counts[j];
            if best.score < score {
                if self.fits(first, j, counts[j]) {
                    best = Rating {
                        score,
                        partner: j as u16,
                    };
                }
            }
        }
        best
    }

    // The rating of each package.
    fn best_partners(&self, counts: &mut [u16; 256], ratings: &mut [Rating])
        requires { length ratings.old ≡ length self.now.curves.now }
        ensures { AllRated self.now.bound self.now.curves.now ratings.new }
    {
        for k in 0..self.curves.len() {
            ratings[k] = self.best_partner(counts, k);
        }
    }

    // The pair with most common curves, "ties to the earlier first, then the earlier second package": the package with the highest score, and its partner.
    // Where that is not known it is looked for anew.
    fn closest(&self, counts: &mut [u16; 256], ratings: &mut [Rating]) -> Option<PackagePair>
        requires ratings_len { length ratings.old ≡ length self.now.curves.now }
        requires all_rated { AllRated self.now.bound self.now.curves.now ratings.old }
        ensures pair { best_pair (within self.now.bound) self.now.curves.now (length self.now.curves.now) ≡ named result }
        ensures rated { AllRated self.now.bound self.now.curves.now ratings.new }
    {
        loop {
            let first = highest(ratings);
            let rating = *ratings.get(first)?;
            if 0 < rating.partner {
                return Some(PackagePair {
                    first,
                    second: rating.partner as usize,
                });
            }
            if rating.score == 0 {
                return None;
            }
            ratings[first] = self.best_partner(counts, first);
        }
    }

    // The ratings of the packages before the joined one.
    fn renew_before(&self, counts: &mut [u16; 256], ratings: &mut [Rating], pair: PackagePair)
        requires { (pair.first < pair.second) × (pair.second ≤ length self.now.curves.now) × (length ratings.old ≡ suc (length self.now.curves.now)) }
        ensures before { (cs : List ℕ) → length cs ≡ suc (length self.now.curves.now)
            → self.now.curves.now ≡ joined_curves cs pair.first pair.second
            → (k : ℕ) → k < pair.first → Rated (within self.now.bound) cs k (get_or ratings.old k unrated)
            → Rated (within self.now.bound) self.now.curves.now k (get_or ratings.new k unrated) }
        ensures behind { (k : ℕ) → pair.first ≤ k → get_or ratings.new k unrated ≡ get_or ratings.old k unrated }
    {
        write_common(self.curves[pair.first], &self.curves[..pair.first], counts);
        for row in 0..pair.first {
            let both = counts[row];
            let fits = self.fits(row, pair.first, both);
            ratings[row] = ratings[row].renewed(fits, both, pair);
        }
    }

    // The rating of each package after the join.
    fn renew_ratings(&self, counts: &mut [u16; 256], ratings: &mut [Rating], pair: PackagePair)
        requires { (pair.first < pair.second) × (pair.second ≤ length self.now.curves.now) × (length ratings.old ≡ suc (length self.now.curves.now)) }
        ensures { (cs : List ℕ) → length cs ≡ suc (length self.now.curves.now)
            → self.now.curves.now ≡ joined_curves cs pair.first pair.second
            → AllRated self.now.bound cs ratings.old → AllRated self.now.bound self.now.curves.now ratings.new }
    {
        let own = self.best_partner(counts, pair.first);
        join_entry(ratings, pair, own);
        self.renew_before(counts, ratings, pair);
        renew_behind(ratings, pair);
    }
}

// Kept: the curves, the sizes and the ratings are changed one after the other here, and a `Table` looks at the first two meanwhile: each is lent for itself.
// Joins the curves of two packages; the sizes and the ratings after it.
fn join_curves(
    bound: usize,
    curves: &mut [u64],
    sizes: &mut [usize],
    counts: &mut [u16; 256],
    ratings: &mut [Rating],
    pair: PackagePair,
)
    requires first_lt_second { (pair.first < pair.second) × (pair.second < length curves.old) × (length ratings.old ≡ length curves.old) }
    requires sized_2 { (length curves.old ≤ 256) × (sizes.old ≡ map size curves.old) }
    requires small { (k : ℕ) → get_or curves.old k 0 < 2 ^ 64 }
    requires all_rated { AllRated bound curves.old ratings.old }
    ensures sets { take (length curves.old - 1) curves.new ≡ joined_curves curves.old pair.first pair.second }
    ensures sized { take (length curves.old - 1) sizes.new ≡ map size (take (length curves.old - 1) curves.new) }
    ensures rated { AllRated bound (take (length curves.old - 1) curves.new) ratings.new }
{
    let left = curves.len() - 1;
    let joined = bitset::union(curves[pair.first], curves[pair.second]);
    join_entry(curves, pair, joined);
    join_entry(sizes, pair, bitset::size(joined));
    let table = Table {
        bound,
        curves: &curves[..left],
        sizes: &sizes[..left],
    };
    table.renew_ratings(counts, ratings, pair);
}

// The sizes of the packages' curves.
fn sizes_of(curves: &[u64]) -> [usize; 256]
    requires { length curves.now ≤ 256 }
    ensures { (length result ≡ 256) × (take (length curves.now) result ≡ map size curves.now) }
{
    let mut sizes = [0; 256];
    for (k, set) in curves.iter().enumerate() {
        sizes[k] = bitset::size(*set);
    }
    sizes
}

// The wants as the curves of the first packages.
fn first_curves(wants: &[u64]) -> [u64; 256]
    requires { length wants.now ≤ 256 }
    ensures { (length result ≡ 256) × (take (length wants.now) result ≡ wants.now) }
{
    let mut curves = [0; 256];
    curves[..wants.len()].copy_from_slice(wants);
    curves
}

// Writes 0, 1, .., one number for each test.
fn as_listed(tests: usize, order: &mut [u16])
    requires { (tests ≤ 256) × (tests ≤ length order.old) }
    ensures { order.new ≡ overwritten (up_to tests) order.old }
{
    for t in 0..tests {
        order[t] = t as u16;
    }
}

// "0, as listed", of at most 256 tests: writes their numbers to the beginning of `order`, where they fit.
pub fn listed_order(tests: usize, order: &mut [u16])
    ensures { order.new ≡ entered (up_to tests) order.old }
{
    if 256 < tests {
        return;
    }
    if order.len() < tests {
        return;
    }
    as_listed(tests, order);
}

impl Round<'_> {
    // The curves of the "longest opening run of tests whose union is at most the places".
    fn longest_run<'t, I: Iterator<Item = &'t u16> + Drop>(&self, tests: I) -> u64
        requires can { I.can_next tests }
        requires ends { IsFinite (I.remaining tests) }
        ensures { (ts : List ℕ) → AlwaysYields I.next_gives (λ t. t.now) tests ts → result ≡ run_from self.now.wants.now self.now.places 0 ts }
    {
        let mut run: u64 = 0;
        for test in tests {
            let wider = bitset::union(run, lists::entry(self.wants, *test as usize));
            if self.places < bitset::size(wider) {
                return run;
            }
            run = wider;
        }
        run
    }

    // The curves of a package's head.
    fn head(&self, tests: &[u16]) -> u64
        ensures { result ≡ head self.now.wants.now self.now.places tests.now }
    {
        self.longest_run(tests.iter())
    }

    // The curves of its tail, "likewise from the end".
    fn tail(&self, tests: &[u16]) -> u64
        ensures { result ≡ tail self.now.wants.now self.now.places tests.now }
    {
        self.longest_run(tests.iter().rev())
    }

    // "Compare tail-head, tail-tail, head-head, head-tail (first package named first)": which of the packages a and b are reversed.
    fn flips(&self, a: &[u16], b: &[u16]) -> Meeting
        ensures { flipped self.now.wants.now self.now.places a.now b.now
            ≡ turned result.first a.now ++ turned result.second b.now }
    {
        let a_head = self.head(a);
        let a_tail = self.tail(a);
        let b_head = self.head(b);
        let b_tail = self.tail(b);
        Meeting::of(a_tail, b_head, false, false)
            .or_more(Meeting::of(a_tail, b_tail, false, true))
            .or_more(Meeting::of(a_head, b_head, true, false))
            .or_more(Meeting::of(a_head, b_tail, true, true))
    }

    // How the packages `part[..a]` and `part[from..]` are joined: in the second round with flipping, in the first as they are.
    fn ways(&self, part: &[u16], a: usize, from: usize) -> Meeting
        requires { (a ≤ length part.now) × (from ≤ length part.now) }
        ensures { join_by self.now.flipping self.now.wants.now self.now.places (take a part.now) (drop from part.now)
            ≡ turned result.first (take a part.now) ++ turned result.second (drop from part.now) }
    {
        if self.flipping {
            self.flips(&part[..a], &part[from..])
        } else {
            Meeting {
                common: 0,
                first: false,
                second: false,
            }
        }
    }

    // "The second's tests go behind the first's": the first has a tests at the start of the part, the second b at its end.
    fn join_tests(&self, part: &mut [u16], a: usize, b: usize)
        requires { a + b ≤ length part.old }
        ensures { (x y z : List ℕ) → part.old ≡ x ++ (y ++ z) → length x ≡ a → length z ≡ b
            → part.new ≡ join_by self.now.flipping self.now.wants.now self.now.places x z ++ y }
    {
        let from = part.len() - b;
        let way = self.ways(part, a, from);
        reverse_if(way.first, &mut part[..a]);
        reverse_if(way.second, &mut part[from..]);
        exchange(&mut part[a..], from - a);
    }

    // Joins the tests and the lengths of two packages. The packages lie in the order, one behind the other.
    fn join_packages(&self, order: &mut [u16], lengths: &mut [usize], pair: PackagePair)
        requires { (pair.first < pair.second) × (pair.second < length lengths.old) × (sum lengths.old ≤ 256) × (sum lengths.old ≤ length order.old) }
        ensures joined { (ps : List (List ℕ)) (rest : List ℕ) → Laid ps rest order.old lengths.old
            → Laid (joined (join_by self.now.flipping self.now.wants.now self.now.places) ps (at pair.first pair.second)) rest order.new
            (take (length lengths.old - 1) lengths.new) }
        ensures sum { sum (take (length lengths.old - 1) lengths.new) ≡ sum lengths.old }
    {
        let a = lengths[pair.first];
        let b = lengths[pair.second];
        let from = total(&lengths[..pair.first]);
        let to = total(&lengths[..pair.second]) + b;
        self.join_tests(&mut order[from..to], a, b);
        join_entry(lengths, pair, a + b);
    }

    // The bound of a pair's union: in the first round the places, in the second none, as a union of sets of 64 curves is always at most 64.
    fn bound(&self) -> usize
        ensures { result ≡ cond self.now.flipping 64 self.now.places }
    {
        if self.flipping { 64 } else { self.places }
    }

    // One round: joins the closest pair as long as there is one, and says how many packages are left.
    fn join_all(&self, order: &mut [u16], lengths: &mut [usize], curves: &mut [u64]) -> usize
        requires { (length lengths.old ≤ 256) × (length curves.old ≡ length lengths.old) × (sum lengths.old ≤ 256)
            × (sum lengths.old ≤ length order.old) }
        ensures left { (result ≤ length lengths.old) × (sum (take result lengths.new) ≡ sum lengths.old) }
        ensures round { (ps : List (List ℕ)) (rest : List ℕ) → Laid ps rest order.old lengths.old → curves.old ≡ map (curves_of self.now.wants.now) ps
            → Laid (round_of self.now.flipping self.now.wants.now self.now.places ps) rest order.new (take result lengths.new)
            × (take result curves.new ≡ map (curves_of self.now.wants.now) (round_of self.now.flipping self.now.wants.now self.now.places ps)) }
    {
        let bound = self.bound();
        let mut left = lengths.len();
        let mut sizes = sizes_of(curves);
        let mut counts = [0u16; 256];
        let mut ratings = [UNRATED; 256];
        let table = Table {
            bound,
            curves,
            sizes: &sizes[..left],
        };
        table.best_partners(&mut counts, &mut ratings[..left]);
        loop {
            let table = Table {
                bound,
                curves: &curves[..left],
                sizes: &sizes[..left],
            };
            let Some(pair) = table.closest(&mut counts, &mut ratings[..left]) else {
                return left;
            };
            self.join_packages(order, &mut lengths[..left], pair);
            join_curves(
                bound,
                &mut curves[..left],
                &mut sizes[..left],
                &mut counts,
                &mut ratings[..left],
                pair,
            );
            left -= 1;
        }
    }
}

// Method 3: "Each test begins as a package, in list order", and then the two rounds.
fn order_by_packages(places: usize, wants: &[u64], order: &mut [u16])
    requires { (length wants.now ≤ 256) × (length wants.now ≤ length order.old) }
    ensures { order.new ≡ overwritten (packages places wants.now) order.old }
{
    let tests = wants.len();
    as_listed(tests, order);
    let mut lengths = [1; 256];
    let mut curves = first_curves(wants);
    let first = Round {
        flipping: false,
        wants,
        places,
    };
    let left = first.join_all(order, &mut lengths[..tests], &mut curves[..tests]);
    let second = Round {
        flipping: true,
        wants,
        places,
    };
    second.join_all(order, &mut lengths[..left], &mut curves[..left]);
}

// "3, packages", of at most 256 tests: writes the tests to the beginning of `order`, where they fit.
pub fn package_order(places: usize, wants: &[u64], order: &mut [u16])
    ensures { order.new ≡ entered (packages places wants.now) order.old }
{
    if 256 < wants.len() {
        return;
    }
    if order.len() < wants.len() {
        return;
    }
    order_by_packages(places, wants, order);
}
