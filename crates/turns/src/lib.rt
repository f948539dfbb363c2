// The rows that have their turn, as the bits of a word: the next one in order, without asking the rows between.
#![tactic(auto)]

ghost use Rattle.std.specs.Prelude.{◌≡◌, ◌-◌, ◌<◌, ◌≤◌};
ghost use Rattle.std.specs.Iterator.{at_most};
ghost use Rattle.marks.specs.Marks.{has};
ghost use Rattle.turns.specs.Turns.{least, GivesNext};

// The first of 32 numbers from `from` on whose bit stands in a word, and the number past them where there is none: a word has no
// bit from 32 on, so every one of its bits from the place on is among them.
pub fn next(calls: u32, from: u32) -> u32
    requires { from < 32 }
    ensures { result ≡ least (has calls) 32 from }
{
    from + u32::trailing_zeros(calls >> from)
}

// The rows from `from` on and below `count` whose bit stands in a word, in order.
#[derive(Clone, Copy)]
pub struct Called {
    calls: u32,
    from: u32,
    count: u32,
}

// The first `count` rows whose bit stands in `calls`, in order.
pub fn rows(calls: u32, count: u32) -> Called
    ensures { result ≡ record { calls = calls; from = 0; count = count } }
{
    Called {
        calls,
        from: 0,
        count,
    }
}

impl Iterator for Called {
    type Item = u32;

    ghost can_next = { λ s. (s.from ≤ s.count) × (s.count < 32) };

    ghost next_gives = { GivesNext };

    ghost remaining = { λ s. at_most (s.count - s.from) };

    fn next(&mut self) -> Option<u32> {
        let row = next(self.calls, self.from);
        if row < self.count {
            self.from = row + 1;
            Some(row)
        } else {
            None
        }
    }
}
