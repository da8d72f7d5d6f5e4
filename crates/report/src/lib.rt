#![tactic(auto)]
// The text of the sheet, as bytes in a lent buffer.
ghost use Rattle.std.specs.Prelude.{◌≡◌, List, [], ◌∷◌, ◌++◌, ℕ, ◌^◌, ◌≤◌, ◌<◌, length};
ghost use Rattle.report.specs.Report.{text, decimal, set_text, step_text, steps_text, end_text, head_text, plan_text, printed};
ghost use Rattle.report.specs.Report.{sheet, sheet_answer, sheet_buffer};
ghost use Rattle.report.specs.ContractWords.{Appended, Puts, Wrote, shown, Filled};
ghost use Rattle.job.specs.Refusal.{refused, number, figure, outcome, overwritten};
ghost use Rattle.job.specs.Words.{capacity};
ghost use Rattle.drive.specs.Steps.{curve_count};
ghost use Rattle.planning.specs.Plan.{steps};

use job::{Head, MOST_TESTS, Refusal};

pub mod audit; // audit.rt: a plan beside the fewest loads
pub mod sizes; // sizes.rt: the loads of every drive size

// A buffer that takes every sheet.
pub const SHEET_BYTES: usize = 105_000;

// Copies a text to the place of one that is as long.
// Kept: tried, `copy_from_slice` calls `memmove` here, and a host in C is promised that only `memcpy` and `memset` are called.
fn copy_text(text: &[u8], to: &mut [u8])
    requires { length text.now ≡ length to.old }
    ensures { to.new ≡ text.now }
{
    for (i, b) in text.iter().enumerate() {
        to[i] = *b;
    }
}

// A text that is put into a lent buffer: `len` counts all its bytes, and the buffer has them where there is room for all. So a first pass over an empty buffer
// tells how long a text is, and a second one writes it.
// Kept: a count beside a buffer: fixed memory.
#[derive(Drop)]
struct Text<'a> {
    out: &'a mut [u8],
    len: usize,
}

impl Text<'_> {
    // No text has so many bytes that the count wraps round.
    fn byte(&mut self, b: u8)
        ensures { Appended self.old (b ∷ []) self.new }
    {
        if self.len < self.out.len() {
            self.out[self.len] = b;
        }
        self.len = self.len.wrapping_add(1);
    }

    fn text(&mut self, text: &[u8])
        ensures { Appended self.old text.now self.new }
    {
        let at = self.len;
        let end = at.wrapping_add(text.len());
        if at <= end && end <= self.out.len() {
            copy_text(text, &mut self.out[at..end]);
        }
        self.len = end;
    }

    // A number in decimal digits.
    fn decimal(&mut self, n: usize)
        ensures { Appended self.old (decimal n) self.new }
    {
        self.text(itoa::Buffer::new().format(n).as_bytes());
    }

    // A number and the text behind it.
    fn number(&mut self, n: usize, text: &[u8])
        ensures { Appended self.old (decimal n ++ text.now) self.new }
    {
        self.decimal(n);
        self.text(text);
    }

    // The curves of a set "in rising order", or "none", each behind a space.
    fn set(&mut self, s: u64)
        ensures { Appended self.old (set_text s) self.new }
    {
        if s == 0 {
            return self.text(b" none");
        }
        for c in bitset::elements(s) {
            self.byte(b' ');
            self.decimal(c);
        }
    }
}

// A whole text, in a buffer from its beginning, and how many bytes it has.
fn put_text<F: Fn(&mut Text)>(put: &F, out: &mut [u8]) -> usize
    requires { F.IsAlwaysCallable put.now }
    ensures { (bytes : List ℕ) → Puts (F.post put.now) bytes → length bytes < 2 ^ 64 → Wrote out.old bytes out.new result }
{
    let mut to = Text { out, len: 0 };
    put(&mut to);
    to.len
}

// The same, where the buffer has room for it.
fn write_text<F: Fn(&mut Text)>(put: F, out: &mut [u8]) -> Result<usize, Refusal>
    requires { F.IsAlwaysCallable put }
    ensures { (bytes : List ℕ) → Puts (F.post put) bytes → length bytes < 2 ^ 64 → Filled bytes out.old (outcome result) out.new }
{
    let needed = put_text(&put, &mut []);
    if out.len() < needed {
        return Err(Refusal::BufferTooSmall(needed));
    }
    Ok(put_text(&put, out))
}

// The line of a step: its position, test, drops and loads.
fn put_step(to: &mut Text, position: usize, test: usize, drops: u64, loads: u64)
    ensures { Appended to.old (step_text position (record { test = test; drops = drops; loads = loads })) to.new }
{
    to.number(position, b": test ");
    to.number(test, b" drop");
    to.set(drops);
    to.text(b" load");
    to.set(loads);
    to.byte(b'\n');
}

// Kept: the steps are three slices here and below, as they are lent (document 01, Forms).
// "for each step its position, test, drops and loads"
fn put_steps(to: &mut Text, order: &[u16], drops: &[u64], loads: &[u64])
    requires drops_len { (length drops.now ≡ length order.now) × (length loads.now ≡ length order.now) }
    ensures { Appended to.old (steps_text 0 (steps order.now drops.now loads.now)) to.new }
{
    for i in 0..order.len() {
        put_step(to, i, order[i] as usize, drops[i], loads[i]);
    }
}

// 02, wish 1: the line of the end step, where something is held at the end.
fn put_end(to: &mut Text, position: usize, end: u64)
    ensures { Appended to.old (end_text position end) to.new }
{
    if end != 0 {
        to.number(position, b": end drop");
        to.set(end);
        to.byte(b'\n');
    }
}

// "test count, places and method", the places less booked
fn put_head(to: &mut Text, head: Head)
    ensures { Appended to.old (head_text (shown head [] [] [] 0)) to.new }
{
    let capacity = job::capacity(head.rig);
    to.number(head.tests, b" tests, ");
    to.number(capacity, b" places, method ");
    to.number(head.method, b"\n");
}

// "the load count"
fn put_loads(to: &mut Text, count: usize)
    ensures { Appended to.old (text "loads " ++ decimal count ++ text "\n") to.new }
{
    to.text(b"loads ");
    to.number(count, b"\n");
}

fn put_plan(
    to: &mut Text,
    head: Head,
    order: &[u16],
    drops: &[u64],
    loads: &[u64],
    end: u64,
    count: usize,
)
    requires drops_len { (length drops.now ≡ length order.now) × (length loads.now ≡ length order.now) }
    requires count_value { count ≡ curve_count loads.now }
    ensures { Appended to.old (plan_text (shown head order.now drops.now loads.now end)) to.new }
{
    put_head(to, head);
    put_steps(to, order, drops, loads);
    put_end(to, head.tests, end);
    put_loads(to, count);
}

// "A refusal prints only `refused 7 at 0` with its own figures", behind the words that say of what: none on the sheet.
fn put_refusal(to: &mut Text, of: &[u8], number: usize, figure: usize)
    ensures { Appended to.old (of.now ++ printed (refused number figure)) to.new }
{
    to.text(of);
    to.text(b"refused ");
    to.number(number, b" at ");
    to.number(figure, b"\n");
}

// The sheet of a plan, where the buffer has room for it.
fn write_plan(
    head: Head,
    order: &[u16],
    drops: &[u64],
    loads: &[u64],
    end: u64,
    count: usize,
    out: &mut [u8],
) -> Result<usize, Refusal>
    requires drops_len { (length drops.now ≡ length order.now) × (length loads.now ≡ length order.now) }
    requires count_value { count ≡ curve_count loads.now }
    requires tests_bound { (head.tests ≤ 256) × (capacity head.rig ≤ 64) × (head.method ≤ 3) × (length order.now ≤ 256) }
    ensures { Filled (plan_text (shown head order.now drops.now loads.now end)) out.old (outcome result) out.new }
{
    write_text(
        |to| put_plan(to, head, order, drops, loads, end, count),
        out,
    )
}

// The line of a refusal, where the buffer has room for it.
fn write_refusal(of: &[u8], r: Refusal, out: &mut [u8]) -> Result<usize, Refusal>
    requires { length of.now ≤ 256 }
    ensures { Filled (of.now ++ printed (refused (number r) (figure r))) out.old (outcome result) out.new }
{
    let number = job::number_of(r) as usize;
    let figure = job::figure_of(r) as usize;
    write_text(|to| put_refusal(to, of, number, figure), out)
}

// "prints test count, places and method; for each step its position, test, drops and loads in rising order; the load count": of a job's bytes, in a lent
// buffer.
pub fn write_report(job: &[u8], out: &mut [u8]) -> Result<usize, Refusal>
    ensures answer { outcome result ≡ sheet_answer job.now out.old }
    ensures bytes { out.new ≡ sheet_buffer job.now out.old }
{
    let mut wants = [0u64; MOST_TESTS];
    let mut order = [0u16; MOST_TESTS];
    let mut drops = [0u64; MOST_TESTS];
    let mut loads = [0u64; MOST_TESTS];
    match planned::plan_job(job, &mut wants, &mut order, &mut drops, &mut loads) {
        Err(r) => write_refusal(b"", r, out),
        Ok(made) => {
            let n = made.head.tests;
            write_plan(
                made.head,
                &order[..n],
                &drops[..n],
                &loads[..n],
                made.end,
                made.loads,
                out,
            )
        }
    }
}

// The whole sheet of a job's bytes, for every input, and how many bytes it has.
pub fn sheet_text(job: &[u8], text: &mut [u8; SHEET_BYTES]) -> usize
    ensures count { result ≡ length (sheet job.now) }
    ensures bytes { text.new ≡ overwritten (sheet job.now) text.old }
{
    // never an error: the buffer takes every text
    write_report(job, text).unwrap()
}
