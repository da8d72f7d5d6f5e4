#![tactic(auto)]
// Sets of numbers below 64, each as one u64: k is an element where bit k is set.
ghost use Rattle.std.specs.Prelude.{◌≡◌, ◌%◌, ◌^◌, min, eqb};
ghost use Rattle.std.specs.Int.Count.{count_trailing_zeros};
ghost use Rattle.std.specs.Iterator.{at_most};
ghost use Rattle.bitset.specs.Set.{◌∩◌, ◌∪◌, ◌∖◌, size, bit, inside, below};
ghost use Rattle.bitset.specs.Walk.{LowestFirst};

// How many elements.
pub fn size(s: u64) -> usize
    ensures { result ≡ size s }
{
    u64::count_ones(s) as usize
}

// The lowest element; 64 of the empty set.
pub fn lowest(s: u64) -> usize
    ensures { result ≡ count_trailing_zeros 64 s }
{
    u64::trailing_zeros(s) as usize
}

// What either has.
pub fn union(a: u64, b: u64) -> u64
    ensures { result ≡ a ∪ b }
{
    a | b
}

// What both have.
pub fn common(a: u64, b: u64) -> u64
    ensures { result ≡ a ∩ b }
{
    a & b
}

// What the first has and the second lacks.
pub fn without(a: u64, b: u64) -> u64
    ensures { result ≡ a ∖ b }
{
    a & !b
}

// The set of the one element k; empty where k is 64 or more.
pub fn single(k: usize) -> u64
    ensures { result ≡ 2 ^ k % 2 ^ 64 }
{
    if k < 64 { 1u64 << k } else { 0 }
}

// Whether k is an element.
pub fn has(s: u64, k: usize) -> bool
    ensures { result ≡ eqb (bit k s) 1 }
{
    k < 64 && (s >> k) % 2 == 1
}

// The set without its lowest element.
pub fn without_lowest(s: u64) -> u64
    ensures { result ≡ s ∖ 2 ^ count_trailing_zeros 64 s }
{
    if s == 0 { 0 } else { s & (s - 1) }
}

// Whether each element of a is one of b.
pub fn inside(a: u64, b: u64) -> bool
    ensures { result ≡ inside a b }
{
    without(a, b) == 0
}

// The numbers below n, and below 64.
pub fn below(n: usize) -> u64
    ensures { result ≡ below (min n 64) }
{
    if n < 64 { (1u64 << n) - 1 } else { !0u64 }
}

// ---- the walk over a set

// Its elements in rising order: those that are left.
#[derive(Drop)]
pub struct Rising {
    left: u64,
}

// All elements, the lowest first.
pub fn elements(s: u64) -> Rising
    ensures { result.left ≡ s }
{
    Rising { left: s }
}

impl Iterator for Rising {
    type Item = usize;

    ghost next_gives = { LowestFirst };

    ghost remaining = { λ s. at_most (size s.left) };

    fn next(&mut self) -> Option<usize> {
        if self.left == 0 {
            return None;
        }
        let k = lowest(self.left);
        self.left = without_lowest(self.left);
        Some(k)
    }
}
