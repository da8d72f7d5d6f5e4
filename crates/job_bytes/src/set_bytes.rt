// A set of curves in bytes, as job records and plan steps hold it: "a group map, where bit j says that a byte follows for curves 8j to 8j+7, bytes in
// rising j, bit i of it being curve 8j+i".
ghost use Rattle.std.specs.Prelude.{◌≡◌, [], ◌∷◌, ◌++◌, ℕ, ◌+◌, ◌≤◌, ◌<◌, min, length, drop};
ghost use Rattle.std.proofs.lemmas.List.Edits.{sets};
ghost use Rattle.bitset.specs.Set.{bit};
ghost use Rattle.job.specs.Refusal.{mapped, room, leaves};
ghost use Rattle.job_bytes.specs.SetBytes.{group_map, set_bytes, group_outcome, read_group};

// Why the byte of a group is not read.
#[derive(Clone, Copy)]
pub enum GroupFault {
    // the bytes end
    Owed,
    // a byte that is zero
    Empty,
    // a byte that names a curve at or above the number of curves
    Unknown,
}

// The byte of a group, if its bit stands in the group map: without a branch on the bit, but where the bytes end. Of a group whose bit does not stand there are
// no curves.
pub fn read_due(
    rest: &[u8],
    at: usize,
    map: u8,
    group: usize,
    curves: usize,
) -> Result<u64, GroupFault>
    ensures { (owed empty unknown i : ℕ) → group_outcome owed empty unknown i result
        ≡ mapped (λ g. g.value) (read_group owed empty unknown (min curves 64) (bit group map) group i (drop at rest.now)) }
{
    if 8 <= group {
        return Ok(0);
    }
    // Kept: the bit is a number, for want of a branch (see above)
    let stands = ((map >> group) % 2) as usize;
    if rest.len() <= at {
        if stands == 0 {
            return Ok(0);
        }
        return Err(GroupFault::Owed);
    }
    let byte = rest[at] as usize * stands;
    if byte < stands {
        return Err(GroupFault::Empty);
    }
    let set = (byte as u64) << (8 * group);
    if bitset::inside(set, bitset::below(curves)) {
        return Ok(set);
    }
    Err(GroupFault::Unknown)
}

// The byte of a group, at a position of the bytes. A u64 has curves below 64 alone, so a number of curves above 64 counts as 64.
pub fn read_group(rest: &[u8], at: usize, group: usize, curves: usize) -> Result<u64, GroupFault>
    ensures { (owed empty unknown i : ℕ) → group_outcome owed empty unknown i result
        ≡ mapped (λ g. g.value) (read_group owed empty unknown (min curves 64) 1 group i (drop at rest.now)) }
{
    if group < 8 {
        return read_due(rest, at, 1 << group, group, curves);
    }
    if rest.len() <= at {
        return Err(GroupFault::Owed);
    }
    if rest[at] == 0 {
        return Err(GroupFault::Empty);
    }
    Err(GroupFault::Unknown)
}

// Writes a set's bytes from `to` on, where ten bytes are free, with a zero byte behind them that the next may be written over; answers where they end.
// Always eight rounds, without a branch: the byte of a group without curves is written over by the next, and the group map is gathered on the way.
pub fn put_set_at(s: u64, to: usize, out: &mut [u8]) -> usize
    ensures room { to + 10 ≤ length out.old → (result ≡ to + length (set_bytes s)) × (out.new ≡ sets out.old to (set_bytes s ++ (0 ∷ []))) }
    ensures none { length out.old < to + 10 → (result ≡ to) × (out.new ≡ out.old) }
{
    if out.len() < 10 {
        return to;
    }
    if out.len() - 10 < to {
        return to;
    }
    let mut rest = s;
    let mut map: u64 = 0;
    let mut end = to + 1;
    for j in 0..8u32 {
        let byte = (rest % 256) as u8;
        out[end] = byte;
        let stands = byte != 0;
        end += usize::from(stands);
        map += u64::from(stands) << j;
        rest /= 256;
    }
    out[end] = 0;
    out[to] = map as u8;
    end
}

// The group map: bit j stands where a curve of 8j to 8j+7 is in the set.
pub fn group_map(s: u64) -> u8
    ensures { result ≡ group_map 8 s }
{
    let mut own = [0u8; 10];
    put_set_at(s, 0, &mut own);
    own[0]
}

// How many bytes a set takes.
pub fn set_len(s: u64) -> usize
    ensures { result ≡ length (set_bytes s) }
{
    let mut own = [0u8; 10];
    put_set_at(s, 0, &mut own)
}

// The bytes of `from` go to the front of `to`, if they fit.
pub fn put_front(from: &[u8], to: &mut [u8])
    ensures { to.new ≡ leaves (mapped (λ _. from.now) (room (length to.old) (length from.now))) to.old }
{
    if to.len() < from.len() {
        return;
    }
    to[..from.len()].copy_from_slice(from);
}

// Writes a set's bytes to the beginning of `out`, where they fit, and answers how many they are.
pub fn put_set(s: u64, out: &mut [u8]) -> usize
    ensures count { result ≡ length (set_bytes s) }
    ensures bytes { out.new ≡ leaves (mapped (λ _. set_bytes s) (room (length out.old) (length (set_bytes s)))) out.old }
{
    let mut own = [0u8; 10];
    let n = put_set_at(s, 0, &mut own);
    put_front(&own[..n], out);
    n
}
