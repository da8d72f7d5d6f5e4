// The table of drive sizes: 02, wish 9, "Purchasing compares drives." It shows the loads that a drive of each size needs for a job's list, in the order of its
// method, and for a wanted count the fewest places.
ghost use Rattle.std.specs.Prelude.{◌≡◌, ◌≤◌, length, get_or};
ghost use Rattle.lists.specs.Choice.{found};
ghost use Rattle.job.specs.Refusal.{outcome, overwritten};
ghost use Rattle.report.specs.ContractWords.{Appended, Filled};
ghost use Rattle.report.specs.SizeTable.{size_request, size_job, size_text, sizes_text, wanted_text, table_text, size_table, table_answer, table_buffer};
ghost use Rattle.report.specs.SizeTable.{wanted_found, count_in};

use crate::{Text, write_refusal, write_text};
use every_size::MARK;
use job::{Head, MOST_TESTS, Refusal};

// A buffer that takes every table.
pub const TABLE_BYTES: usize = 2_048;

// The most digits of a wanted count.
const MOST_DIGITS: usize = 5;

// A job's head, and the load counts of its list for 1 to 64 places.
#[derive(Clone, Copy)]
struct JobSizes {
    head: Head,
    counts: [u16; 64],
}

// ---- the counts

// Ordering, and the counts of the list in that order.
fn size_list(head: Head, wants: &[u64]) -> Result<JobSizes, Refusal>
    requires { (length wants.now ≡ head.tests) × (head.tests ≤ 256) }
    ensures { outcome result ≡ size_request (record { head = head; wants = wants.now }) }
{
    let n = head.tests;
    let mut order = [0u16; MOST_TESTS];
    ordering::order_tests(head.rig, head.method, wants, &mut order)?;
    let counts = sizing::all_sizes(head.rig.curves, wants, &order[..n])?;
    Ok(JobSizes { head, counts })
}

// Reading before that.
fn size_job(job: &[u8]) -> Result<JobSizes, Refusal>
    ensures { outcome result ≡ size_job job.now }
{
    let mut wants = [0u64; MOST_TESTS];
    let head = job_bytes::read_job(job, &mut wants)?;
    let n = head.tests;
    size_list(head, &wants[..n])
}

// ---- the text

// The line of a size: its places, and its loads, or that it is too small for some test.
fn put_size(to: &mut Text, places: usize, entry: u16)
    ensures { Appended to.old (size_text places entry) to.new }
{
    to.number(places, b" places: ");
    if entry == MARK {
        to.text(b"too few\n");
    } else {
        to.number(entry as usize, b" loads\n");
    }
}

// A line for each size, up to the first with the least loads.
fn put_sizes(to: &mut Text, counts: &[u16])
    requires counts_len { length counts.now ≡ 64 }
    ensures { Appended to.old (sizes_text (get_or counts.now 63 0) 1 counts.now) to.new }
{
    let least = counts[63];
    for (i, entry) in counts.iter().enumerate() {
        put_size(to, i + 1, *entry);
        if *entry == least {
            return;
        }
    }
}

// The line of a wanted count, and the fewest places for it.
fn put_fewest(to: &mut Text, loads: usize, counts: &[u16])
    ensures { Appended to.old (wanted_text (found loads) counts.now) to.new }
{
    to.text(b"at most ");
    to.number(loads, b" loads: ");
    match every_size::fewest_places(counts, loads) {
        Some(p) => to.number(p, b" places\n"),
        None => to.text(b"none\n"),
    }
}

// The same, where a count is asked for.
fn put_wanted(to: &mut Text, wanted: Option<usize>, counts: &[u16])
    ensures { Appended to.old (wanted_text (wanted_found wanted) counts.now) to.new }
{
    match wanted {
        Some(loads) => put_fewest(to, loads, counts),
        None => (),
    }
}

fn put_table(to: &mut Text, head: Head, counts: &[u16], wanted: Option<usize>)
    requires counts_len { length counts.now ≡ 64 }
    ensures { Appended to.old (table_text (wanted_found wanted) (record { head = head; counts = counts.now })) to.new }
{
    to.number(head.tests, b" tests, method ");
    to.number(head.method, b"\n");
    put_sizes(to, counts);
    to.text(b"more places: no fewer loads\n");
    put_wanted(to, wanted, counts);
}

// The table, where the buffer has room for it.
fn write_table(
    head: Head,
    counts: &[u16],
    wanted: Option<usize>,
    out: &mut [u8],
) -> Result<usize, Refusal>
    requires { length counts.now ≡ 64 }
    ensures { Filled (table_text (wanted_found wanted) (record { head = head; counts = counts.now })) out.old (outcome result) out.new }
{
    write_text(|to| put_table(to, head, counts, wanted), out)
}

// The table of a job's bytes, in a lent buffer.
pub fn write_size_table(job: &[u8], wanted: Option<usize>, out: &mut [u8]) -> Result<usize, Refusal>
    ensures answer { outcome result ≡ table_answer job.now (wanted_found wanted) out.old }
    ensures bytes { out.new ≡ table_buffer job.now (wanted_found wanted) out.old }
{
    match size_job(job) {
        Err(r) => write_refusal(b"", r, out),
        Ok(sized) => write_table(sized.head, &sized.counts, wanted, out),
    }
}

// The whole table of a job's bytes, for every input, and how many bytes it has.
pub fn size_table_text(job: &[u8], wanted: Option<usize>, text: &mut [u8; TABLE_BYTES]) -> usize
    ensures count { result ≡ length (size_table job.now (wanted_found wanted)) }
    ensures bytes { text.new ≡ overwritten (size_table job.now (wanted_found wanted)) text.old }
{
    // never an error: the buffer takes every text
    write_size_table(job, wanted, text).unwrap()
}

// ---- the wanted count

// Kept: digits read by hand: `parse` of the library takes a sign before them, which is no count here (`count_in`).
// The count that a word names: one to five decimal digits, and nothing else.
pub fn wanted_in(word: &[u8]) -> Option<usize>
    ensures { wanted_found result ≡ count_in word.now }
{
    if word.len() < 1 {
        return None;
    }
    if MOST_DIGITS < word.len() {
        return None;
    }
    let mut n: usize = 0;
    for &b in word {
        if b < b'0' {
            return None;
        }
        if b'9' < b {
            return None;
        }
        n = 10 * n + (b - b'0') as usize;
    }
    Some(n)
}
