#![tactic(auto)]
// The call of the rig's host, for C: the library's function under the same clauses.
ghost use Rattle.std.specs.Prelude.{◌≡◌};
ghost use Rattle.curveplan.specs.Call.{call_answer, call_plan};

// "one call takes the job's bytes and fills the plan's bytes. It answers one number: the count of plan bytes, or on a refusal its number × 65,536 plus its
// figure."
#[unsafe(no_mangle)]
pub extern "C" fn curveplan_plan(job: &[u8], plan: &mut [u8]) -> u64
    ensures answer { result ≡ call_answer job.now plan.old }
    ensures bytes { plan.new ≡ call_plan job.now plan.old }
{
    curveplan::curveplan_plan(job, plan)
}
