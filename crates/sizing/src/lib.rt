#![tactic(auto)]
// Every drive size together: 02, wish 9. The load counts of one list, in one order of its tests, for drives with 1 to 64 places, and the fewest places for a
// wanted count.
ghost use Rattle.std.specs.Prelude.{◌≡◌, List, ℕ, replicate};
ghost use Rattle.std.specs.Result.{result_unwrap_or};
ghost use Rattle.job.specs.Refusal.{done, mapped, outcome};
ghost use Rattle.every_size.specs.Sizes.{mark, size_found};
ghost use Rattle.sizing.specs.Sizing.{sizing, fewest, counts_given};
ghost use Rattle.sizing.specs.EverySize.{EverySize};

use job::Refusal;

// "For one order from an empty drive give the load counts for 1 to 64 places in one walk along the list": that for p places in entry p - 1. "apart from 7, the
// walk refuses as planning does": 10, 8. In the place of counts that are refused stand, for `counts_or_marks`, marks.
pub fn all_sizes(curves: usize, wants: &[u64], order: &[u16]) -> Result<[u16; 64], Refusal>
    ensures answer { outcome result ≡ sizing curves wants.now order.now }
    ensures counts { result_unwrap_or result (replicate 64 mark) ≡ counts_given (sizing curves wants.now order.now) }
    ensures every { (counts : List ℕ) → outcome result ≡ done counts → EverySize curves wants.now order.now counts }
{
    job::examine_sizing(curves, wants, order)?;
    let tests = wants.len();
    let mut steps = [0u64; job::MOST_TESTS];
    planning::in_order(wants, order, &mut steps);
    Ok(every_size::all_sizes(&steps[..tests]))
}

// The counts; in the place of those that were refused, marks, so that no size serves.
pub fn counts_or_marks(sizes: Result<[u16; 64], Refusal>) -> [u16; 64]
    ensures { result ≡ counts_given (outcome sizes) }
{
    sizes.unwrap_or([every_size::MARK; 64])
}

// "for a wanted count, give the fewest places that need no more loads, a marked size never serving, or none". 10, 8.
pub fn fewest_places(
    curves: usize,
    wants: &[u64],
    order: &[u16],
    loads: usize,
) -> Result<Option<usize>, Refusal>
    ensures { mapped size_found (outcome result) ≡ fewest curves wants.now order.now loads }
{
    let counts = all_sizes(curves, wants, order)?;
    Ok(every_size::fewest_places(&counts, loads))
}
