#![tactic(auto)]
// Lists of 64-bit numbers in place.
ghost use Rattle.std.specs.Prelude.{◌≡◌, get_or, set};

// The entry at a position; 0 beyond the list.
pub fn entry(list: &[u64], i: usize) -> u64
    ensures { result ≡ get_or list.now i 0 }
{
    list.get(i).copied().unwrap_or(0)
}

// Stores an entry; nothing beyond the list.
pub fn put(list: &mut [u64], i: usize, value: u64)
    ensures { list.new ≡ set list.old i value }
{
    // Kept: tried, the proof did not close (`if let Some(x) = list.get_mut(i)`: once that borrow is over, nothing is known of the list's elements).
    if i < list.len() {
        list[i] = value;
    }
}
