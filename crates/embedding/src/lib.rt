// How another crate uses the kernel: a shift runs so many ticks from a fresh start. Its contract follows from those of the entries
// by one line of proof (proofs/shift).
#![tactic(auto)]

ghost use Rattle.kernel.specs.Call.{start_state, Runs};

use kernel::Outcome;

// Where the plan is refused, the fresh start answers the all-zero state. It is handed on all the same: `run` asks the plan before
// the state, and answers with the plan's number.
pub fn shift(plan: &[u8], events: &[u8], ticks: u32, trace: &mut [u32]) -> Outcome
    ensures { Runs plan.now events.now (start_state plan.now) ticks trace.old trace.new result }
{
    let begun = kernel::fresh_start(plan);
    let state = begun.state;
    kernel::run(plan, events, state, ticks, trace)
}
