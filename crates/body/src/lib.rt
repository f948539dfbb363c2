// Document 01, 'The body': what a task's body leaves of its machine state and held outputs.
#![tactic(auto)]

ghost use Rattle.std.specs.Prelude.{◌≡◌, ◌+◌, ◌*◌, ◌≤◌, length, IfSome};
ghost use Rattle.words.specs.Words.{words_of};
ghost use Rattle.plan.specs.File.{task_of, transition_at, action_at};
ghost use Rattle.body.specs.Body.{sooner, look, fires, after, move, do_action, perform, run_actions, run_if, leaves, supervise, control, body};
ghost use Rattle.body.specs.Steps.{in_hand, Whole};

use arrays::{get, put};
use plan::{NoKind, TaskKind};

// A transition is held by the word at which it starts. Its four words lie inside the part, and are read without a test.

// The one with the smaller order; at equal orders the earlier.
#[tactic(auto, unfolding(crate::specs::Body::sooner))]
fn sooner_of(part: &[u8], at: usize, best: Option<usize>) -> usize
    requires { (at * 4 + 16 ≤ length part.now) × IfSome best (λ other. other * 4 + 16 ≤ length part.now) }
    ensures taken { in_hand (words_of part.now) (Some result) ≡ sooner (transition_at (words_of part.now) at) (in_hand (words_of part.now) best) }
    ensures inside { result * 4 + 16 ≤ length part.now }
{
    match best {
        Some(other) if words::known(part, other + 2) <= words::known(part, at + 2) => other,
        _ => at,
    }
}

// One more transition: read no further than its 'from' where that is another state.
fn look_at(
    part: &[u8],
    at: usize,
    latched: &[u32],
    machine: u32,
    best: Option<usize>,
) -> Option<usize>
    requires { (at * 4 + 16 ≤ length part.now) × IfSome best (λ other. other * 4 + 16 ≤ length part.now) }
    ensures taken { in_hand (words_of part.now) result ≡ look latched.now machine (transition_at (words_of part.now) at) (in_hand (words_of part.now) best) }
    ensures inside { IfSome result (λ taken. taken * 4 + 16 ≤ length part.now) }
{
    if words::known(part, at) != machine {
        return best;
    }
    if get(latched, words::known(part, at + 1) as usize) == 0 {
        return best;
    }
    Some(sooner_of(part, at, best))
}

// The transition that is taken from a machine state.
fn choose(part: &[u8], latched: &[u32], machine: u32) -> Option<usize>
    requires { Whole part.now }
    ensures taken { in_hand (words_of part.now) result ≡ fires latched.now machine (task_of (words_of part.now)).transitions }
    ensures inside { IfSome result (λ taken. taken * 4 + 16 ≤ length part.now) }
{
    let first = plan::transitions_at(part);
    let transitions = words::word(part, plan::TRANSITION_COUNT);
    let mut best = None;
    for j in 0..transitions {
        let at = first + j as usize * plan::TRANSITION_WORDS;
        best = look_at(part, at, latched, machine, best);
    }
    best
}

// The state after it.
#[tactic(auto, unfolding(crate::specs::Body::after))]
fn next_state(part: &[u8], machine: u32, taken: Option<usize>) -> u32
    requires { IfSome taken (λ at. at * 4 + 16 ≤ length part.now) }
    ensures { result ≡ after machine (in_hand (words_of part.now) taken) }
{
    match taken {
        None => machine,
        Some(at) => words::known(part, at + 3),
    }
}

// Both questions are asked before anything is taken from a.
fn transfer(held: &mut [u32], a: usize, b: usize, m: u32)
    ensures { held.new ≡ move held.old a b m }
{
    let rest = get(held, a).checked_sub(m);
    let sum = get(held, b).checked_add(m);
    if let (Some(rest), Some(sum)) = (rest, sum) {
        put(held, a, rest);
        put(held, b, sum);
    }
}

// The action that starts at a word.
#[tactic(auto, unfolding(crate::specs::Body::do_action))]
fn act(part: &[u8], at: usize, latched: &[u32], held: &mut [u32])
    requires { at * 4 + 20 ≤ length part.now }
    ensures { held.new ≡ do_action latched.now (action_at (words_of part.now) at) held.old }
{
    let kind = words::known(part, at + 1);
    let a = words::known(part, at + 2) as usize;
    let c = words::known(part, at + 4);
    let m = get(latched, c as usize);
    // By number, as the definition has it: whatever is not 1, 2 or 3 moves, also what is the number of no kind.
    match kind {
        1 => put(held, a, c),
        2 => put(held, a, m),
        3 => {
            let sum = get(held, a).wrapping_add(m);
            put(held, a, sum)
        }
        _ => transfer(held, a, words::known(part, at + 3) as usize, m),
    }
}

// One more action: read no further than its state where that is another one.
fn perform_at(part: &[u8], at: usize, latched: &[u32], state: u32, held: &mut [u32])
    requires { at * 4 + 20 ≤ length part.now }
    ensures { held.new ≡ perform latched.now state (action_at (words_of part.now) at) held.old }
{
    if words::known(part, at) == state {
        act(part, at, latched, held);
    }
}

// The state's actions in file order.
fn run_actions(part: &[u8], latched: &[u32], state: u32, held: &mut [u32])
    requires { Whole part.now }
    ensures { held.new ≡ run_actions latched.now state (task_of (words_of part.now)).actions held.old }
{
    let first = plan::actions_at(part);
    let actions = words::word(part, plan::ACTION_COUNT);
    for j in 0..actions {
        let at = first + j as usize * plan::ACTION_WORDS;
        perform_at(part, at, latched, state, held);
    }
}

// They run only if updated.
fn run_if(updated: bool, part: &[u8], latched: &[u32], state: u32, held: &mut [u32])
    requires { Whole part.now }
    ensures { held.new ≡ run_if updated latched.now state (task_of (words_of part.now)).actions held.old }
{
    if updated {
        run_actions(part, latched, state, held);
    }
}

// What a supervisor's body leaves of the lent outputs, and the machine state that it returns.
#[tactic(auto, using(crate::proofs::Laws::truth_number), unfolding(crate::specs::Body::supervise))]
fn supervisor(part: &[u8], latched: &[u32], machine: u32, held: &mut [u32]) -> u32
    requires { Whole part.now }
    ensures { leaves result held.new ≡ supervise (task_of (words_of part.now)) latched.now machine held.old }
{
    let taken = choose(part, latched, machine);
    let next = next_state(part, machine, taken);
    let updated = next != machine;
    put(held, 0, next);
    put(held, 1, u32::from(updated));
    run_if(updated, part, latched, next, held);
    next
}

// The same of a controller, which keeps its machine state.
#[tactic(auto, unfolding(crate::specs::Body::control))]
fn controller(part: &[u8], latched: &[u32], machine: u32, held: &mut [u32]) -> u32
    requires { Whole part.now }
    ensures { leaves result held.new ≡ control (task_of (words_of part.now)) latched.now machine held.old }
{
    let state = get(latched, 0);
    let updated = get(latched, 1) != 0;
    run_if(updated, part, latched, state, held);
    machine
}

// A task's body, on lent outputs: for any values, and any bytes that hold all the transitions and actions they count.
pub fn run_lent(part: &[u8], latched: &[u32], machine: u32, held: &mut [u32]) -> u32
    requires { Whole part.now }
    ensures { leaves result held.new ≡ body (task_of (words_of part.now)) latched.now machine held.old }
{
    match TaskKind::try_from(words::word(part, plan::KIND)) {
        Ok(TaskKind::Supervisor) => supervisor(part, latched, machine, held),
        Ok(TaskKind::Controller) => controller(part, latched, machine, held),
        Err(NoKind) => controller(part, latched, machine, held),
    }
}
