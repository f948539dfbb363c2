// Document 01, 'Numbers returned': the check of a plan with an event list, rules 1..11 in the paper's order, for any bytes.
#![tactic(auto)]

ghost use Rattle.std.specs.Prelude.{◌≡◌, ◌+◌, ◌*◌, ◌≤◌, length};
ghost use Rattle.words.specs.Words.{words_of};
ghost use Rattle.limits.specs.Limits.{last_instant};
ghost use Rattle.lists.specs.Lists.{tab, between};
ghost use Rattle.answers.specs.Answers.{said, first_broken};
ghost use Rattle.plan.specs.File.{word, body_of, task_of};
ghost use Rattle.events.specs.Events.{event_of, event_size_rule, one_event, event_rules, events_verdict};
ghost use Rattle.event_check.specs.Targets.{content_by, written_by, with_driven, driven_by, targets_by, list_by};

use answers::{Answer, Refusal};
use plan_check::Numbers;
use words::{known, word};

// Rule 9.
fn size_holds(events: &[u8]) -> bool
    ensures { result ≡ event_size_rule events.now }
{
    let size = events.len();
    (size % limits::EVENT_SIZE == 0) & (size <= limits::EVENT_BYTES)
}

// The signals that the tasks of a plan write, as marks.
fn written_signals(plan: &[u8], tasks: u32) -> u64
    ensures { result ≡ written_by (tab (λ i. task_of (body_of (words_of plan.now) (i + 1))) 0 tasks) }
{
    let mut marks: u64 = 0;
    for i in 0..tasks {
        plan_check::mark_one(plan, i, Numbers::Outputs, &mut marks);
    }
    marks
}

// The period of a task.
fn period_of(plan: &[u8], task: u32) -> u32
    ensures { result ≡ word (body_of (words_of plan.now) (task + 1)) 1 }
{
    word(plan::task_part(plan, task), plan::PERIOD)
}

// The marks with a task, where that is event-driven.
fn with_driven(plan: &[u8], task: u32, marks: u64) -> u64
    ensures { result ≡ with_driven (words_of plan.now) task marks }
{
    if period_of(plan, task) == 0 {
        marks::with_mark(marks, task)
    } else {
        marks
    }
}

// The event-driven tasks of a plan, as marks.
fn driven_tasks(plan: &[u8], tasks: u32) -> u64
    ensures { result ≡ driven_by (words_of plan.now) tasks }
{
    let mut marks: u64 = 0;
    for i in 0..tasks {
        marks = with_driven(plan, i, marks);
    }
    marks
}

// What rule 11 asks of a plan, read once for all events: how many tasks and signals it has, the signals that tasks write and the event-driven tasks.
#[derive(Clone, Copy)]
struct EventTargets {
    tasks: u32,
    signals: u32,
    written: u64,
    driven: u64,
}

fn targets_of(plan: &[u8]) -> EventTargets
    ensures { result ≡ targets_by (words_of plan.now) }
{
    let tasks = word(plan, plan::TASK_COUNT);
    let signals = word(plan, plan::SIGNAL_COUNT);
    let written = written_signals(plan, tasks);
    let driven = driven_tasks(plan, tasks);
    EventTargets {
        tasks,
        signals,
        written,
        driven,
    }
}

// Rule 10.
fn instant_holds(last: u32, instant: u32) -> bool
    ensures { result ≡ between last last_instant instant }
{
    (last <= instant) & (instant <= limits::LAST_INSTANT)
}

// Rule 11 of record i.
fn content_holds(events: &[u8], i: u32, targets: EventTargets) -> bool
    requires { i * 16 + 16 ≤ length events.now }
    ensures { result ≡ content_by targets (event_of (words_of events.now) i) }
{
    let at = i as usize * 4;
    let kind = known(events, at + 1);
    let target = known(events, at + 2);
    let value = known(events, at + 3);
    let driven = marks::is_marked(targets.driven, target);
    let written = marks::is_marked(targets.written, target);
    // By number and without a branch: by a match on the kind a call with 1,024 events took half as long again.
    let releases = (kind == 1) & (target < targets.tasks) & driven & (value == 0);
    let sets = (kind == 2) & (target < targets.signals) & !written;
    releases | sets
}

// Rules 10 and 11 of record i, after a record of instant last.
fn one_event(events: &[u8], i: u32, last: u32, targets: EventTargets) -> Answer
    requires { i * 16 + 16 ≤ length events.now }
    ensures { said result ≡ first_broken (one_event (content_by targets) i last (event_of (words_of events.now) i)) }
{
    let instant = known(events, i as usize * 4);
    if !instant_holds(last, instant) {
        return Err(Refusal::EventInstant { record: i });
    }
    if !content_holds(events, i, targets) {
        return Err(Refusal::EventContent { record: i });
    }
    Ok(())
}

// Rules 10 and 11 of each event.
fn all_events(events: &[u8], count: u32, targets: EventTargets) -> Answer
    requires { count * 16 ≤ length events.now }
    ensures { said result ≡ first_broken (event_rules (content_by targets) 0 0 (tab (event_of (words_of events.now)) 0 count)) }
{
    let mut last: u32 = 0;
    for i in 0..count {
        one_event(events, i, last, targets)?;
        last = known(events, i as usize * 4);
    }
    Ok(())
}

// Rules 9, 10, 11, which come after those of the plan. Where there is no event, nothing is asked of the plan.
fn list_answer(plan: &[u8], events: &[u8]) -> Answer
    ensures { said result ≡ first_broken (list_by (words_of plan.now) events.now) }
{
    if !size_holds(events) {
        return Err(Refusal::EventSize);
    }
    let count = (events.len() / limits::EVENT_SIZE) as u32;
    if count == 0 {
        return Ok(());
    }
    let targets = targets_of(plan);
    all_events(events, count, targets)
}

// The number and place of a plan with an event list: 0, or those of the first broken rule.
pub fn check(plan: &[u8], events: &[u8]) -> Answer
    ensures { said result ≡ events_verdict plan.now events.now }
{
    plan_check::check(plan)?;
    list_answer(plan, events)
}
