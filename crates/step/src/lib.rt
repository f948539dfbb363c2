// Document 01, 'One tick', over the lent arrays: steps 0, 1, 2 and 3, one after the other.
#![tactic(auto)]

ghost use Rattle.std.specs.Prelude.{◌≡◌, ◌+◌, ◌≤◌, ◌^◌};
ghost use Rattle.events.specs.Events.{event_count};
ghost use Rattle.steps.specs.Flat.{WholeBodies};
ghost use Rattle.step.specs.Step.{given, place_after, step_flat, step_called, Ready, Stepped};

use step_deadlines::deadlines;
use step_releases::Instant;

// What a run keeps beside the arrays: the next tick's number, the event place, and the word of the trace at which the next
// record stands.
#[derive(Clone, Copy)]
pub struct Clock {
    pub tick: u32,
    pub place: u32,
    pub at: usize,
}

// One tick, whose events stand from the clock's place up to `last`: the caller has looked for that place to know how many they
// are. In steps 1 and 2 only the rows of `calls` have their turn: the caller knows that the others would do nothing.
pub fn step(
    plan: &[u8],
    rows: &[u32],
    count: u32,
    events: &[u8],
    clock: Clock,
    last: u32,
    calls: u32,
    signals: &mut [u32],
    tasks: &mut [u32],
    latched: &mut [u32],
    held: &mut [u32],
    trace: &mut [u32],
) -> Clock
    requires ready { Ready count (event_count events.now) clock }
    requires last_is { last ≡ place_after (given plan.now rows.now count events.now) clock.tick clock.place }
    requires called_only { step_called calls (given plan.now rows.now count events.now) clock.tick clock.place (record { signals = signals.old; tasks = tasks.old; latched = latched.old; held = held.old })
        ≡ step_flat (given plan.now rows.now count events.now) clock.tick clock.place (record { signals = signals.old; tasks = tasks.old; latched = latched.old; held = held.old }) }
    requires whole_bodies { WholeBodies plan.now rows.now count }
    ensures stepped { Stepped clock result (record { signals = signals.new; tasks = tasks.new; latched = latched.new; held = held.new }) trace.old trace.new
        (given plan.now rows.now count events.now)
        (record { signals = signals.old; tasks = tasks.old; latched = latched.old; held = held.old }) }
    ensures near { result.at ≤ clock.at + 2 ^ 41 }
{
    let t = clock.tick;
    let first = clock.place;
    let moment = Instant { t, first, last };
    step_events::set_signals(events, first, last, signals);
    let written = deadlines(rows, count, t, calls, held, signals, tasks, trace, clock.at);
    let released = step_releases::releases(
        rows, count, events, moment, calls, signals, tasks, latched, trace, written,
    );
    let at = step_running::run_urgent(
        plan, rows, count, t, signals, tasks, latched, held, trace, released,
    );
    Clock {
        tick: t + 1,
        place: last,
        at,
    }
}
