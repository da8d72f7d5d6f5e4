#![tactic(auto)]
// The orders of the tests.
ghost use Rattle.std.specs.Prelude.{◌≡◌, ◌≤◌, length};
ghost use Rattle.job.specs.Refusal.{outcome, overwritten};
ghost use Rattle.job.specs.Words.{job_of};
ghost use Rattle.ordering.specs.Methods.{order_by};
ghost use Rattle.ordering.specs.Ordering.{order_answer, order_list};

use job::{Refusal, Rig};

mod growing;

// Kept: the method is a number, as it was handed over, and chooses one of three calls with parameters of their own.
// The order of the method.
fn write_order(capacity: usize, method: usize, wants: &[u64], order: &mut [u16])
    requires { (length wants.now ≤ 256) × (length wants.now ≤ length order.old) }
    ensures { order.new ≡ overwritten (order_by method capacity wants.now) order.old }
{
    if method == 0 {
        packages::listed_order(wants.len(), order);
        return;
    }
    if method == 1 {
        growing::reverse_cuthill_mckee(wants, order);
        return;
    }
    packages::package_order(capacity, wants, order);
}

// Orders the tests: "10 in its own order, then for ordering 7, 9". Answers the number of tests, which are in the first entries of the lent list; nothing
// lent changes under a refusal.
pub fn order_tests(
    rig: Rig,
    method: usize,
    wants: &[u64],
    order: &mut [u16],
) -> Result<usize, Refusal>
    ensures answer { outcome result ≡ order_answer method (job_of rig wants.now) order.old }
    ensures list { order.new ≡ order_list method (job_of rig wants.now) order.old }
{
    job::examine_ordering(rig, method, wants)?;
    let n = wants.len();
    if order.len() < n {
        return Err(Refusal::BufferTooSmall(n));
    }
    let capacity = job::capacity(rig);
    write_order(capacity, method, wants, order);
    Ok(n)
}
