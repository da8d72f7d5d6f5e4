// Job bytes, read: the head, then one record for each test.
ghost use Rattle.std.specs.Prelude.{◌≡◌, not, ◌&&◌, List, [], ◌++◌, ℕ, ◌+◌, ◌*◌, ◌≤◌, length, take, drop, eqb};
ghost use Rattle.job.specs.Words.{digit};
ghost use Rattle.job.specs.Handed.{between};
ghost use Rattle.job.specs.Refusal.{done, mapped, outcome};
ghost use Rattle.job_bytes.specs.SetBytes.{Got, got};
ghost use Rattle.job_bytes.specs.JobBytes.{fields, read_number, read_field, method_read, head_of, head_fields, read_head, read_records};
ghost use Rattle.job_bytes.specs.JobBytes.{read_job_answer, read_job_wants};

use crate::fields::{FIELDS, Field, MAPS, row};
use crate::set_bytes::{GroupFault, read_due};
use job::{Head, Refusal, Rig, examine_capacity};

// "Two-byte numbers have the low byte first": the number of so many bytes at a position.
fn number_at(job: &[u8], at: usize, width: usize) -> usize
    requires { (width ≤ 8) × (at + width ≤ length job.now) }
    ensures { read_number width at (drop at job.now) ≡ done (got result (at + width) (drop (at + width) job.now)) }
{
    let mut value: usize = 0;
    for k in (0..width).rev() {
        value = job[at + k] as usize + 256 * value;
    }
    value
}

// "range", and "A field never holds its absent value".
fn holds(field: Field, value: usize) -> bool
    ensures { result ≡ (between field.low field.high value && not (eqb value field.absent)) }
{
    (field.low..=field.high).contains(&value) && value != field.absent
}

// A field, if its bit stands: "cut before value". The next one begins behind it.
fn read_field(job: &[u8], at: usize, stands: bool, field: Field) -> Result<usize, Refusal>
    requires { (field.width ≤ 8) × (at ≤ length job.now) }
    ensures { read_field field (digit stands) at (drop at job.now)
        ≡ mapped (λ v. got v (at + digit stands * field.width) (drop (at + digit stands * field.width) job.now)) (outcome result) }
{
    if !stands {
        return Ok(field.absent);
    }
    let width = field.width;
    if job.len() - at < width {
        return Err(Refusal::Truncated(job.len()));
    }
    let value = number_at(job, at, width);
    if holds(field, value) {
        return Ok(value);
    }
    Err(Refusal::BadHeader(at))
}

// "Old job files with method 2 still read, as method 1".
fn method_read(value: usize) -> usize
    ensures { result ≡ method_read value }
{
    if value == job::OLD_METHOD { 1 } else { value }
}

// A head of its fields' values.
fn head_of(values: &[usize; FIELDS]) -> Head
    ensures { result ≡ head_of values.now }
{
    let [places, curves, tests, method, booked] = *values;
    Head {
        rig: Rig {
            places,
            booked,
            curves,
        },
        tests,
        method: method_read(method),
    }
}

// The head: "The first byte is a bit map; then only the fields whose bit stands, in bit order." Their values go to `values`; answers where the head ends.
fn read_fields(job: &[u8], values: &mut [usize]) -> Result<usize, Refusal>
    requires { length values.old ≡ length fields }
    ensures { head_fields job.now ≡ mapped (λ n. got (head_of values.new) n (drop n job.now)) (outcome result) }
{
    if job.len() == 0 {
        return Err(Refusal::Truncated(0));
    }
    let mut map = job[0] as usize;
    if MAPS <= map {
        return Err(Refusal::BadHeader(0));
    }
    let mut at: usize = 1;
    for j in 0..FIELDS {
        let field = row(j);
        let stands = map % 2 == 1;
        values[j] = read_field(job, at, stands, field)?;
        if stands {
            at += field.width;
        }
        map /= 2;
    }
    Ok(at)
}

// Kept: the group loop stands in the test loop and is left by a label, as document 01 names the form; plan bytes have a group loop of their own.
// One record for each test, from `start` on, always eight rounds a record; answers where the last one ends. "The first faulty byte ends the reading, in the
// middle of a test's groups as well."
fn read_records(
    job: &[u8],
    start: usize,
    tests: usize,
    curves: usize,
    list: &mut [u64],
) -> Result<usize, Refusal>
    requires { (start ≤ length job.now) × (tests ≤ length list.old) × (curves ≤ 64) }
    ensures end { outcome result ≡ mapped (λ g. g.next) (read_records curves tests [] start (drop start job.now)) }
    ensures sets { (g : Got (List ℕ)) → read_records curves tests [] start (drop start job.now) ≡ done g
        → take tests list.new ≡ g.value }
{
    let mut answer = Ok(());
    let mut at = start;
    'tests: for t in 0..tests {
        // "Each record is read from the rest of the bytes, starting where the last one ended."
        let rest = &job[at..];
        if rest.len() == 0 {
            answer = Err(Refusal::Truncated(job.len()));
            break 'tests;
        }
        let map = rest[0];
        let mut set: u64 = 0;
        let mut used: usize = 1;
        for j in 0..8 {
            match read_due(rest, used, map, j, curves) {
                Ok(group) => {
                    set = set | group;
                    used += ((map >> j) % 2) as usize;
                }
                Err(GroupFault::Owed) => {
                    answer = Err(Refusal::Truncated(job.len()));
                    break 'tests;
                }
                Err(GroupFault::Empty) => {
                    let offset = at + used;
                    answer = Err(Refusal::EmptyGroup(offset));
                    break 'tests;
                }
                Err(GroupFault::Unknown) => {
                    let offset = at + used;
                    answer = Err(Refusal::UnknownCurve(offset));
                    break 'tests;
                }
            }
        }
        list[t] = set;
        at += used;
    }
    answer?;
    Ok(at)
}

// The tests behind a head that was read, from `start` on: the records, 6, 9.
fn read_tests(job: &[u8], head: Head, start: usize, wants: &mut [u64]) -> Result<Head, Refusal>
    requires { read_head job.now ≡ done (got head start (drop start job.now)) }
    ensures answer { outcome result ≡ read_job_answer job.now wants.old }
    ensures lent { wants.new ≡ read_job_wants job.now wants.old }
{
    let tests = head.tests;
    let mut list = [0u64; job::MOST_TESTS];
    let end = read_records(job, start, tests, head.rig.curves, &mut list)?;
    if end < job.len() {
        return Err(Refusal::TrailingBytes(end));
    }
    if wants.len() < tests {
        return Err(Refusal::BufferTooSmall(tests));
    }
    wants[..tests].copy_from_slice(&list[..tests]);
    Ok(head)
}

// Reads job bytes; on success the wants of the tests stand at the front of `wants`.
pub fn read_job(job: &[u8], wants: &mut [u64]) -> Result<Head, Refusal>
    ensures answer { outcome result ≡ read_job_answer job.now wants.old }
    ensures lent { wants.new ≡ read_job_wants job.now wants.old }
{
    let mut values = [0usize; FIELDS];
    let start = read_fields(job, &mut values)?;
    let head = head_of(&values);
    // 13, at the last byte of the head
    examine_capacity(head.rig, start - 1)?;
    read_tests(job, head, start, wants)
}
