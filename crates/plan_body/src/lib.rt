// Document 01, 'The plan file': the body reader. It hands back a part of the caller's file, never a copy.
#![tactic(auto)]

ghost use Rattle.std.specs.Prelude.{◌≡◌};
ghost use Rattle.answers.specs.Answers.{said};
ghost use Rattle.plan_body.specs.Body.{reader_verdict, Handed};

use answers::{Answer, Refusal};
use words::word;

// The number and place that go with a body: the plan's, then 26, or 0.
fn body_answer(plan: &[u8], task: u32) -> Answer
    ensures { said result ≡ reader_verdict plan.now task }
{
    plan_check::check(plan)?;
    if task < word(plan, plan::TASK_COUNT) {
        Ok(())
    } else {
        Err(Refusal::NoSuchTask)
    }
}

// Task i's body as a part of the caller's file, and into the lent pair the number and place that go with it; an empty part at the
// file's start where the number is not 0. So it is no Result: a refusal hands back a part too, and the pair says both its numbers.
pub fn task_body<'a>(plan: &'a [u8], task: u32, told: &mut [u32; 2]) -> &'a [u8]
    ensures { Handed plan.entry task result told.new }
{
    let answer = body_answer(plan, task);
    let number = answers::number(answer);
    let place = answers::place(answer);
    *told = [number, place];
    if !answers::accepted(answer) {
        return &plan[0..0];
    }
    let entry = task as usize + 1;
    let start = plan::start_of(plan, entry) as usize * 4;
    let size = plan::length_of(plan, entry) as usize * 4;
    &plan[start..start + size]
}
