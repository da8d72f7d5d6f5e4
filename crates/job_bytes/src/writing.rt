// Job bytes, written: the head, then one record for each test.
ghost use Rattle.std.specs.Prelude.{◌≡◌, [], ◌∷◌, ◌++◌, ◌+◌, ◌*◌, ◌≤◌, length, get_or};
ghost use Rattle.std.proofs.lemmas.List.Edits.{sets};
ghost use Rattle.job.specs.Refusal.{outcome};
ghost use Rattle.job.specs.Words.{job_of};
ghost use Rattle.job_bytes.specs.JobBytes.{fields, number_bytes, head_bytes, record_bytes, write_job_answer, write_job_buffer};

use crate::fields::{FIELDS, row};
use crate::set_bytes::{put_front, put_set_at};
use job::{Refusal, Rig, examine_job};

// What the values of a head come to: its map, where a field's bit stands unless it holds its absent value, and how many bytes it takes.
#[derive(Clone, Copy)]
struct Shape {
    map: u8,
    len: usize,
}

fn head_shape(values: &[usize; FIELDS]) -> Shape
    ensures map { result.map ≡ get_or (head_bytes values.now) 0 0 }
    ensures len { (result.len ≡ length (head_bytes values.now)) × (result.len ≤ 1 + 8 * length fields) }
{
    let mut map: u8 = 0;
    let mut len: usize = 1;
    for j in (0..FIELDS).rev() {
        let field = row(j);
        map *= 2;
        if values[j] != field.absent {
            map += 1;
            len += field.width;
        }
    }
    Shape { map, len }
}

// Writes a number of so many bytes from `at` on, the low byte first.
fn put_number(value: usize, width: usize, at: usize, out: &mut [u8])
    requires { at + width ≤ length out.old }
    ensures { out.new ≡ sets out.old at (number_bytes width value) }
{
    let mut rest = value;
    for k in 0..width {
        out[at + k] = (rest % 256) as u8;
        rest /= 256;
    }
}

// Writes a head, whose map is handed over, to the beginning of `out`.
fn put_head(values: &[usize; FIELDS], map: u8, out: &mut [u8])
    requires { (map ≡ get_or (head_bytes values.now) 0 0) × (length (head_bytes values.now) ≤ length out.old) }
    ensures { out.new ≡ sets out.old 0 (head_bytes values.now) }
{
    out[0] = map;
    let mut at: usize = 1;
    for (j, value) in values.iter().enumerate() {
        let field = row(j);
        if *value != field.absent {
            put_number(*value, field.width, at, out);
            at += field.width;
        }
    }
}

// Writes the records from `at` on, and a zero byte behind them; answers where they end.
fn put_records(wants: &[u64], at: usize, out: &mut [u8]) -> usize
    requires { at + 9 * length wants.now + 1 ≤ length out.old }
    ensures end { result ≡ at + length (record_bytes wants.now) }
    ensures bytes { out.new ≡ sets out.old at (record_bytes wants.now ++ (0 ∷ [])) }
{
    let mut to = at;
    for w in wants {
        to = put_set_at(*w, to, out);
    }
    out[to] = 0;
    to
}

// The bytes of a head and of the records at most, and one behind them.
const MOST_BYTES: usize = 1 + 8 * FIELDS + 9 * job::MOST_TESTS + 1;

// Writes the bytes of a job to the beginning of `out`, and answers how many they are.
pub fn write_job(rig: Rig, method: usize, wants: &[u64], out: &mut [u8]) -> Result<usize, Refusal>
    ensures answer { outcome result ≡ write_job_answer method (job_of rig wants.now) out.old }
    ensures lent { out.new ≡ write_job_buffer method (job_of rig wants.now) out.old }
{
    examine_job(rig, method, wants)?;
    let values = [rig.places, rig.curves, wants.len(), method, rig.booked];
    let head = head_shape(&values);
    let mut bytes = [0u8; MOST_BYTES];
    put_head(&values, head.map, &mut bytes);
    let needed = put_records(wants, head.len, &mut bytes);
    if out.len() < needed {
        return Err(Refusal::BufferTooSmall(needed));
    }
    put_front(&bytes[..needed], out);
    Ok(needed)
}
