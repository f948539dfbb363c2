// Document 01, 'The plan file': the rules 4, 5 and 6 of one task, read from the part of the file that is its body.
#![tactic(auto)]

ghost use Rattle.std.specs.Prelude.{◌≡◌, ◌+◌, ◌*◌, ◌/◌, ◌<◌, ◌≤◌, ◌^◌, cond, ◌||◌, length, eqb, ltb};
ghost use Rattle.words.specs.Words.{words_of};
ghost use Rattle.lists.specs.Lists.{all};
ghost use Rattle.answers.specs.Answers.{said, first_broken};
ghost use Rattle.plan_task.specs.Orders.{slots, slot_of};
ghost use Rattle.plan.specs.File.{task_of, values, transition_at, transitions_from, action_at, actions_from, actions_at, action_count};
ghost use Rattle.plan.specs.Rules.{shape_rule, timing_rule, supervisor_rule, controller_rule, transition_rule, transitions_rule, action_rule, lowest, body_rule, one_task};

use answers::{Answer, Refusal};
use plan::{ActionKind, NoKind, TaskKind};
use words::{known, word};

// A word of marks for each state, numbered as the states are, from 1 on; word 0 is no state's.
const SLOTS: usize = limits::STATES as usize + 1;

// Rule 4. The counts are any 32-bit numbers: their sum is taken in 64 bits and cannot wrap.
fn shape_holds(part: &[u8]) -> bool
    ensures { result ≡ shape_rule (words_of part.now) }
{
    let length = part.len() / 4;
    let inputs = word(part, plan::INPUT_COUNT);
    let outputs = word(part, plan::OUTPUT_COUNT);
    let transitions = word(part, plan::TRANSITION_COUNT);
    let actions = word(part, plan::ACTION_COUNT);
    let formula = plan::actions_at(part) + actions as usize * plan::ACTION_WORDS;
    (plan::INPUTS_AT <= length)
        & (inputs <= limits::PORTS)
        & (outputs <= limits::PORTS)
        & (transitions <= limits::TRANSITIONS)
        & (actions <= limits::ACTIONS)
        & (length == formula)
}

// Rule 5.
fn timing_holds(part: &[u8]) -> bool
    ensures { result ≡ timing_rule (task_of (words_of part.now)) }
{
    let priority = word(part, plan::PRIORITY);
    let period = word(part, plan::PERIOD);
    let deadline = word(part, plan::DEADLINE);
    let execution = word(part, plan::EXECUTION);
    let offset = word(part, plan::OFFSET);
    let release = ((period == 0) & (offset == 0))
        | ((period != 0) & (deadline <= period) & (offset < period));
    ((1 <= priority) & (priority <= limits::PRIORITY))
        & ((1 <= execution) & (execution <= limits::TIME))
        & (period <= limits::TIME)
        & (deadline <= limits::TIME)
        & release
}

// Rule 6, the kind and what hangs on it.
fn kind_holds(part: &[u8]) -> bool
    ensures { result ≡ (supervisor_rule (task_of (words_of part.now)) || controller_rule (task_of (words_of part.now))) }
{
    let initial = word(part, plan::INITIAL);
    let inputs = word(part, plan::INPUT_COUNT);
    let outputs = word(part, plan::OUTPUT_COUNT);
    let transitions = word(part, plan::TRANSITION_COUNT);
    match TaskKind::try_from(word(part, plan::KIND)) {
        Ok(TaskKind::Supervisor) => {
            ((1 <= initial) & (initial <= limits::STATES)) & (2 <= outputs)
        }
        Ok(TaskKind::Controller) => (initial == 0) & (transitions == 0) & (2 <= inputs),
        Err(NoKind) => false,
    }
}

// Rule 6: whether the words from one on, `count` of them, are signal numbers.
fn signals_hold(part: &[u8], start: usize, count: u32, signals: u32) -> bool
    requires { start < 2 ^ 33 }
    ensures { result ≡ all (λ x. ltb x signals) (values (words_of part.now) start count) }
{
    let mut good = true;
    for j in 0..count {
        good &= word(part, start + j as usize) < signals;
    }
    good
}

// Rule 6, one transition by itself.
fn transition_holds(part: &[u8], at: usize, inputs: u32) -> bool
    requires { at * 4 + 16 ≤ length part.now }
    ensures { result ≡ transition_rule inputs (transition_at (words_of part.now) at) }
{
    let from = known(part, at);
    let input = known(part, at + 1);
    let order = known(part, at + 2);
    let to = known(part, at + 3);
    ((1 <= from) & (from <= limits::STATES))
        & ((1 <= to) & (to <= limits::STATES))
        & (input < inputs)
        & ((1 <= order) & (order <= limits::ORDER))
}

// The word of marks for a transition's 'from': its own where it is a state. Any other number refuses its transition, so where its mark goes does not matter, and word 0 is no state's.
fn slot_of(from: u32) -> usize
    ensures value { result ≡ slot_of from }
    ensures below { result < slots }
{
    if from <= limits::STATES {
        from as usize
    } else {
        0
    }
}

// Rule 6, the transitions. Orders in range are below 64, so that one word holds the marks of all orders of a state, and one pass finds an order that stands twice.
fn transitions_hold(part: &[u8], first: usize, count: u32, inputs: u32) -> bool
    requires { first + count * 4 ≤ length part.now / 4 }
    ensures { result ≡ transitions_rule inputs (transitions_from (words_of part.now) first count) }
{
    let mut seen = [0u64; SLOTS];
    let mut good = true;
    for j in 0..count {
        let at = first + j as usize * plan::TRANSITION_WORDS;
        let one = transition_holds(part, at, inputs);
        let slot = slot_of(known(part, at));
        let order = known(part, at + 2);
        let before = seen[slot];
        let old = marks::is_marked(before, order);
        let after = marks::with_mark(before, order);
        seen[slot] = after;
        good &= one & !old;
    }
    good
}

// What rule 6 asks of an action's positions: the number of inputs and of outputs, and the lowest output that it may change.
#[derive(Clone, Copy)]
struct Ports {
    inputs: u32,
    outputs: u32,
    lowest: u32,
}

// Rule 6, one action.
fn action_holds(part: &[u8], at: usize, ports: Ports) -> bool
    requires { at * 4 + 20 ≤ length part.now }
    ensures { result ≡ action_rule ports.inputs ports.outputs ports.lowest (action_at (words_of part.now) at) }
{
    let state = known(part, at);
    let kind = known(part, at + 1);
    let a = known(part, at + 2);
    let b = known(part, at + 3);
    let c = known(part, at + 4);
    // By number and without a branch: by a match on the kind the check of a plan took 1.7 times as long where kinds are mixed.
    let moves = kind == ActionKind::Move as u32;
    let second = (moves & (ports.lowest <= b) & (b < ports.outputs) & (b != a))
        | (!moves & (b == 0));
    ((1 <= state) & (state <= limits::STATES))
        & ((ActionKind::Set as u32 <= kind) & (kind <= ActionKind::Move as u32))
        & (ports.lowest <= a)
        & (a < ports.outputs)
        & second
        & ((kind == ActionKind::Set as u32) | (c < ports.inputs))
}

// Rule 6, the actions.
fn actions_hold(part: &[u8], first: usize, count: u32, ports: Ports) -> bool
    requires { first + count * 5 ≤ length part.now / 4 }
    ensures { result ≡ all (action_rule ports.inputs ports.outputs ports.lowest) (actions_from (words_of part.now) first count) }
{
    let mut good = true;
    for j in 0..count {
        good &= action_holds(part, first + j as usize * plan::ACTION_WORDS, ports);
    }
    good
}

// The lowest output that an action may change: a supervisor's first two are its state and 'updated'.
fn lowest_output(kind: u32) -> u32
    ensures { result ≡ cond (eqb kind 1) 2 0 }
{
    match TaskKind::try_from(kind) {
        Ok(TaskKind::Supervisor) => 2,
        Ok(TaskKind::Controller) => 0,
        Err(NoKind) => 0,
    }
}

// Rule 6.
fn body_holds(part: &[u8], signals: u32) -> bool
    requires { actions_at (words_of part.now) + action_count (words_of part.now) * 5 ≡ length part.now / 4 }
    ensures { result ≡ body_rule signals (task_of (words_of part.now)) }
{
    let kind = word(part, plan::KIND);
    let inputs = word(part, plan::INPUT_COUNT);
    let outputs = word(part, plan::OUTPUT_COUNT);
    let transitions = word(part, plan::TRANSITION_COUNT);
    let actions = word(part, plan::ACTION_COUNT);
    let lowest = lowest_output(kind);
    kind_holds(part)
        & signals_hold(part, plan::INPUTS_AT, inputs, signals)
        & signals_hold(part, plan::outputs_at(part), outputs, signals)
        & transitions_hold(part, plan::transitions_at(part), transitions, inputs)
        & actions_hold(
            part,
            plan::actions_at(part),
            actions,
            Ports {
                inputs,
                outputs,
                lowest,
            },
        )
}

// Number and place for the task whose body this is: 4, 5, 6 or accepted.
pub fn task_answer(part: &[u8], signals: u32, task: u32) -> Answer
    ensures { said result ≡ first_broken (one_task signals task (words_of part.now)) }
{
    if !shape_holds(part) {
        return Err(Refusal::TaskShape { task });
    }
    if !timing_holds(part) {
        return Err(Refusal::TaskTiming { task });
    }
    if !body_holds(part, signals) {
        return Err(Refusal::TaskBody { task });
    }
    Ok(())
}
