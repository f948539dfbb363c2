// Document 01, 'Numbers returned': the plan check, rules 1..8 in the paper's order, for any bytes.
#![tactic(auto)]

ghost use Rattle.std.specs.Prelude.{◌≡◌, ◌+◌, ◌*◌, ◌≤◌, ◌<◌};
ghost use Rattle.limits.specs.Limits.{max_tasks};
ghost use Rattle.words.specs.Words.{words_of};
ghost use Rattle.lists.specs.Lists.{tab};
ghost use Rattle.answers.specs.Answers.{said, refused, verdict, first_broken, or_else};
ghost use Rattle.plan.specs.File.{task_count, values, body_of, task_of};
ghost use Rattle.plan.specs.Rules.{size_rule, head_rule, chained, contents_rule, one_task, task_rules, head_rules, plan_verdict};
ghost use Rattle.plan_check.specs.Places.{far};
ghost use Rattle.plan_check.specs.Clash.{new_to, mark_all, clash_number, numbers_of, clash_of};
ghost use Rattle.plan_check.specs.declared.Numbers.TheVariants.{Priority, Outputs};

use answers::{Answer, Refusal};
use words::word;

// The numbers of a task that no other task may have: its priority by rule 7, its outputs by rule 8.
#[derive(Clone, Copy, PartialEq, Eq)]
pub enum Numbers {
    Priority,
    Outputs,
}

// Rule 1.
fn size_holds(bytes: &[u8]) -> bool
    ensures { result ≡ size_rule bytes.now }
{
    let size = bytes.len();
    (size % 4 == 0) & ((12 <= size) & (size <= limits::PLAN_BYTES))
}

// Rule 2.
fn head_holds(bytes: &[u8]) -> bool
    ensures { result ≡ head_rule (words_of bytes.now) }
{
    let version = word(bytes, plan::VERSION);
    let signals = word(bytes, plan::SIGNAL_COUNT);
    let tasks = word(bytes, plan::TASK_COUNT);
    (version == 1)
        & ((1 <= signals) & (signals <= limits::SIGNALS))
        & ((1 <= tasks) & (tasks <= limits::TASKS))
}

// Rule 3, the entries. Starts and lengths are any 32-bit numbers: their sum is taken in 64 bits and cannot wrap.
fn entries_chain(bytes: &[u8], entries: u32) -> bool
    requires { entries ≤ max_tasks + 1 }
    ensures { result ≡ chained (words_of bytes.now) entries 0 (3 + entries * 2) }
{
    let mut good = true;
    let mut at = (plan::CONTENTS_AT + entries as usize * plan::ENTRY_WORDS) as u64;
    for k in 0..entries {
        let start = plan::start_of(bytes, k as usize);
        let size = plan::length_of(bytes, k as usize);
        good &= start as u64 == at;
        at += size as u64;
    }
    good & (at == (bytes.len() / 4) as u64)
}

// Rule 3.
fn contents_hold(bytes: &[u8]) -> bool
    requires { task_count (words_of bytes.now) ≤ max_tasks }
    ensures { result ≡ contents_rule (words_of bytes.now) }
{
    let signals = word(bytes, plan::SIGNAL_COUNT);
    let tasks = word(bytes, plan::TASK_COUNT);
    let size = plan::length_of(bytes, 0);
    let first = plan::CONTENTS_AT + (tasks as usize + 1) * plan::ENTRY_WORDS;
    (first <= bytes.len() / 4) & (size == signals) & entries_chain(bytes, tasks + 1)
}

// Rules 4, 5, 6 of task i.
fn one_task(bytes: &[u8], task: u32, signals: u32) -> Answer
    ensures { said result ≡ first_broken (one_task signals task (body_of (words_of bytes.now) (task + 1))) }
{
    plan_task::task_answer(plan::task_part(bytes, task), signals, task)
}

// Rules 4, 5 and 6 of each task.
fn all_tasks(bytes: &[u8], signals: u32, tasks: u32) -> Answer
    ensures { said result ≡ first_broken (task_rules signals 0 (tab (λ i. body_of (words_of bytes.now) (i + 1)) 0 tasks)) }
{
    for i in 0..tasks {
        one_task(bytes, i, signals)?;
    }
    Ok(())
}

// Words of a part, from a word on, are marked; whether none of them was marked before.
fn mark_words(part: &[u8], start: usize, count: u32, marks: &mut u64) -> bool
    requires { start < far }
    ensures new { result ≡ new_to marks.old (values (words_of part.now) start count) }
    ensures marks { marks.new ≡ mark_all marks.old (values (words_of part.now) start count) }
{
    let mut new = true;
    for j in 0..count {
        let x = word(part, start + j as usize);
        new &= !marks::is_marked(*marks, x);
        *marks = marks::with_mark(*marks, x);
    }
    new
}

// The same of a task's priority, or of its outputs.
fn mark_task(part: &[u8], numbers: Numbers, marks: &mut u64) -> bool
    ensures new { result ≡ new_to marks.old (numbers_of numbers (task_of (words_of part.now))) }
    ensures marks { marks.new ≡ mark_all marks.old (numbers_of numbers (task_of (words_of part.now))) }
{
    match numbers {
        Numbers::Priority => mark_words(part, plan::PRIORITY, 1, marks),
        Numbers::Outputs => {
            let start = plan::outputs_at(part);
            mark_words(part, start, word(part, plan::OUTPUT_COUNT), marks)
        }
    }
}

// The same of task i of a file.
pub fn mark_one(bytes: &[u8], task: u32, numbers: Numbers, marks: &mut u64) -> bool
    ensures new { result ≡ new_to marks.old (numbers_of numbers (task_of (body_of (words_of bytes.now) (task + 1)))) }
    ensures marks { marks.new ≡ mark_all marks.old (numbers_of numbers (task_of (body_of (words_of bytes.now) (task + 1)))) }
{
    mark_task(plan::task_part(bytes, task), numbers, marks)
}

fn clash_at(numbers: Numbers, task: u32) -> Refusal
    ensures { refused result ≡ verdict (clash_number numbers) task }
{
    match numbers {
        Numbers::Priority => Refusal::SamePriority { task },
        Numbers::Outputs => Refusal::SameOutput { task },
    }
}

// Rules 7 and 8: the first task whose priority, or one of whose outputs, an earlier one has.
fn first_clash(bytes: &[u8], tasks: u32, numbers: Numbers) -> Answer
    ensures { said result ≡ clash_of (words_of bytes.now) tasks numbers }
{
    let mut marks: u64 = 0;
    for i in 0..tasks {
        if !mark_one(bytes, i, numbers, &mut marks) {
            return Err(clash_at(numbers, i));
        }
    }
    Ok(())
}

// Rules 7 and then 8.
fn clashes(bytes: &[u8], tasks: u32) -> Answer
    ensures { said result ≡ or_else (clash_of (words_of bytes.now) tasks Priority) (clash_of (words_of bytes.now) tasks Outputs) }
{
    first_clash(bytes, tasks, Numbers::Priority)?;
    first_clash(bytes, tasks, Numbers::Outputs)
}

// Rules 1, 2, 3.
fn head_answer(bytes: &[u8]) -> Answer
    ensures { said result ≡ first_broken (head_rules bytes.now) }
{
    if !size_holds(bytes) {
        return Err(Refusal::PlanSize);
    }
    if !head_holds(bytes) {
        return Err(Refusal::PlanHead);
    }
    if !contents_hold(bytes) {
        return Err(Refusal::PlanContents);
    }
    Ok(())
}

// The number and place of a plan: 0, or those of the first broken rule.
pub fn check(bytes: &[u8]) -> Answer
    ensures { said result ≡ plan_verdict bytes.now }
{
    head_answer(bytes)?;
    let signals = word(bytes, plan::SIGNAL_COUNT);
    let tasks = word(bytes, plan::TASK_COUNT);
    all_tasks(bytes, signals, tasks)?;
    clashes(bytes, tasks)
}
