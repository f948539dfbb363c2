// A word of 64 bits as a set of numbers below 64: what has been seen is marked, and asked for, in one step.
#![tactic(auto)]

ghost use Rattle.std.specs.Prelude.{◌≡◌};
ghost use Rattle.marks.specs.Marks.{seen, mark};

// Whether a number is marked. Numbers are taken modulo 64, so that the question is total.
pub fn is_marked(marks: u64, number: u32) -> bool
    ensures { result ≡ seen marks number }
{
    (marks >> (number % 64)) % 2 == 1
}

// The marks with one number more.
pub fn with_mark(marks: u64, number: u32) -> u64
    ensures { result ≡ mark marks number }
{
    marks | (1u64 << (number % 64))
}
