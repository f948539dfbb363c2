// When rows have something to do. In a tick only rows whose instant has come and rows that a release event asks for need their
// turn, and ticks in which nothing can happen but that the running task loses a tick are passed over in one move: no event, no
// deadline and no release falls in them, and the running task is not done in them.
#![tactic(auto)]

ghost use Rattle.std.specs.Prelude.{◌≡◌, false, get_or, leb, ℕ, ◌-◌, ◌<◌, ◌≤◌, length};
ghost use Rattle.limits.specs.Limits.{max_tasks};
ghost use Rattle.marks.specs.Marks.{has, seen};
ghost use Rattle.words.specs.Words.{words_of};
ghost use Rattle.events.specs.Events.{event_of, event_count};
ghost use Rattle.steps.specs.Flat.{task_of_row, end_from, between};
ghost use Rattle.quiet.specs.Quiet.{RowQuiet, NotDue, Wakes, OthersWake, AllIn, with_asked, OthersUnasked, Unasked, OthersLater, Passed};

use arrays::{row_field, task_field};
use events::EventKind;
use words::word;

// Up to so many rows a loop over the rows is shorter than one over all lanes.
const FEW: u32 = 4;

// Above every instant that a tick can have, so that it holds no least instant down.
const NEVER: u32 = u32::MAX;

// An instant from t on before which a periodic task is not due.
fn next_due(t: u32, offset: u32, period: u32) -> u32
    requires { 0 < period }
    ensures { NotDue t result offset period }
{
    if t <= offset {
        return offset;
    }
    let past = (t - offset) % period;
    if past == 0 {
        return t;
    }
    t.saturating_add(period - past)
}

// An instant from t on before which the task of a row does nothing in steps 1 and 2, no event coming. A task that waits, or has
// no deadline, looks to its next release, another one in flight to its deadline.
fn row_wake(rows: &[u32], row: u32, tasks: &[u32], t: u32) -> u32
    ensures { (t' : ℕ) → t ≤ t' → t' < result → RowQuiet rows.now tasks.now row t' }
{
    let task = row_field(rows, row, arrays::TASK);
    let period = row_field(rows, row, arrays::PERIOD);
    let deadline = row_field(rows, row, arrays::DEADLINE);
    let status = task_field(tasks, task, arrays::STATUS);
    if (status == arrays::READY) | (deadline == 0) {
        if period == 0 {
            return NEVER;
        }
        return next_due(t, row_field(rows, row, arrays::OFFSET), period);
    }
    if (status == arrays::ACTIVE) | (status == arrays::FINISHED) {
        return task_field(tasks, task, arrays::RELEASE).saturating_add(deadline);
    }
    NEVER
}

// The instants of all rows, one for each. They are kept from tick to tick, and a row's is found anew only after the row had its
// turn. At first every row is to have its turn; the lanes beyond the rows must not hold the least instant down.
pub fn no_wakes(count: u32) -> [u32; limits::ALL_TASKS]
    requires { count ≤ max_tasks }
    ensures { (j : ℕ) → j < count → get_or result j 0 ≡ 0 }
{
    let mut wakes = [NEVER; limits::ALL_TASKS];
    wakes[..count as usize].fill(0);
    wakes
}

// After a tick: the rows that had their turn look from t on; the instants of the others stand.
pub fn refresh(
    rows: &[u32],
    count: u32,
    tasks: &[u32],
    t: u32,
    calls: u32,
    wakes: &mut [u32; limits::ALL_TASKS],
)
    requires { (count ≤ max_tasks) × OthersWake calls rows.now tasks.now count t wakes.old }
    ensures { Wakes rows.now tasks.now count t wakes.new }
{
    for row in turns::rows(calls, count) {
        let wake = row_wake(rows, row, tasks, t);
        arrays::put(wakes, row as usize, wake);
    }
}

// Those of so many rows whose instant has come, as bits.
fn awake_of(wakes: &[u32], t: u32) -> u32
    requires { length wakes.now ≤ max_tasks }
    ensures { AllIn (λ j. leb (get_or wakes.now j 0) t) (length wakes.now) result }
{
    let mut calls: u32 = 0;
    for (j, wake) in wakes.iter().enumerate() {
        calls |= u32::from(*wake <= t) << j;
    }
    calls
}

// The rows whose instant has come, as bits. Few rows are walked; else all lanes are asked, in a loop of fixed length that the
// compiler turns into a few wide operations.
fn awake(count: u32, wakes: &[u32; limits::ALL_TASKS], t: u32) -> u32
    requires { count ≤ max_tasks }
    ensures { AllIn (λ j. leb (get_or wakes.now j 0) t) count result }
{
    if count <= FEW {
        awake_of(&wakes[..count as usize], t)
    } else {
        awake_of(wakes, t)
    }
}

// The marks with the task that one event asks to start.
fn with_asked(events: &[u8], p: u32, tasks: u64) -> u64
    ensures { result ≡ with_asked (event_of (words_of events.now) p) tasks }
{
    let at = p as usize * 4;
    match EventKind::try_from(word(events, at + 1)) {
        Ok(EventKind::Release) => marks::with_mark(tasks, word(events, at + 2)),
        Ok(EventKind::Set) => tasks,
        Err(_) => tasks,
    }
}

// The tasks that the events from a place to another ask to start, as marks.
fn asked_tasks(events: &[u8], first: u32, last: u32) -> u64
    ensures { OthersUnasked result (between (words_of events.now) first last) }
{
    let mut tasks: u64 = 0;
    for p in first..last {
        tasks = with_asked(events, p, tasks);
    }
    tasks
}

// The rows of marked tasks, as bits.
fn rows_of(rows: &[u32], count: u32, tasks: u64) -> u32
    requires { count ≤ max_tasks }
    ensures { AllIn (λ j. seen tasks (task_of_row rows.now j)) count result }
{
    let mut all: u32 = 0;
    for j in 0..count {
        let marked = marks::is_marked(tasks, row_field(rows, j, arrays::TASK));
        all |= u32::from(marked) << j;
    }
    all
}

// The rows whose task the events from a place to another ask to start, as bits. Where they ask none, no row is looked at.
fn asked_rows(rows: &[u32], count: u32, events: &[u8], first: u32, last: u32) -> u32
    requires { count ≤ max_tasks }
    ensures { (j : ℕ) → j < count → has result j ≡ false → Unasked rows.now j (between (words_of events.now) first last) }
{
    let tasks = asked_tasks(events, first, last);
    if tasks == 0 {
        return 0;
    }
    rows_of(rows, count, tasks)
}

// The rows that have their turn at tick t, whose events stand from a place to another, as bits: those whose instant has come, and
// those that a release event asks for. Bits beyond the rows do no harm.
pub fn calls(
    rows: &[u32],
    count: u32,
    events: &[u8],
    first: u32,
    last: u32,
    wakes: &[u32; limits::ALL_TASKS],
    t: u32,
) -> u32
    requires { count ≤ max_tasks }
    ensures { OthersLater result rows.now count (between (words_of events.now) first last) t wakes.now }
{
    awake(count, wakes, t) | asked_rows(rows, count, events, first, last)
}

// The least of so many instants.
fn least_wake(wakes: &[u32]) -> u32
    ensures { (j : ℕ) → j < length wakes.now → result ≤ get_or wakes.now j 0 }
{
    let mut least = NEVER;
    for wake in wakes {
        least = least.min(*wake);
    }
    least
}

// The least instant of all rows, in the same two ways.
fn next_wake(count: u32, wakes: &[u32; limits::ALL_TASKS]) -> u32
    requires { count ≤ max_tasks }
    ensures { (j : ℕ) → j < count → result ≤ get_or wakes.now j 0 }
{
    if count <= FEW {
        least_wake(&wakes[..count as usize])
    } else {
        least_wake(wakes)
    }
}

// An instant before which the event at a place does not come.
fn next_event(events: &[u8], place: u32) -> u32
    ensures { (t : ℕ) → t < result → end_from (words_of events.now) t (event_count events.now - place) place ≡ place }
{
    if (place as usize) < events.len() / limits::EVENT_SIZE {
        word(events, place as usize * 4)
    } else {
        NEVER
    }
}

// Passes over as many ticks as can be, at most `left`, from tick t on; how many they were.
pub fn pass(
    rows: &[u32],
    count: u32,
    events: &[u8],
    place: u32,
    t: u32,
    left: u32,
    wakes: &[u32; limits::ALL_TASKS],
    tasks: &mut [u32],
) -> u32
    requires { (count ≤ max_tasks) × Wakes rows.now tasks.old count t wakes.now }
    ensures { Passed rows.now count (words_of events.now) (event_count events.now) place t left result tasks.old tasks.new }
{
    let wake = next_event(events, place).min(next_wake(count, wakes));
    let most = wake.saturating_sub(t).min(left);
    if most == 0 {
        return 0;
    }
    let row = choice::running_row(rows, count, tasks);
    if count <= row {
        return most;
    }
    let task = row_field(rows, row, arrays::TASK);
    let rest = task_field(tasks, task, arrays::REMAINING);
    let ticks = most.min(rest.saturating_sub(1));
    if ticks == 0 {
        return 0;
    }
    arrays::put(
        tasks,
        task as usize * arrays::FIELDS + 1,
        rest.saturating_sub(ticks),
    );
    ticks
}
