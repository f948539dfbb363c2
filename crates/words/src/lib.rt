// Words of 4 bytes, lowest byte first: the numbers that plan files and event lists are made of.
#![tactic(auto)]

ghost use Rattle.std.specs.Prelude.{◌≡◌, ◌+◌, ◌*◌, ◌≤◌, length};
ghost use Rattle.words.specs.Words.{four_at, word_at, part_of};

// The four bytes from k on.
fn four(bytes: &[u8], k: usize) -> u32
    requires { k + 4 ≤ length bytes.now }
    ensures { result ≡ four_at bytes.now k }
{
    u32::from_le_bytes([bytes[k], bytes[k + 1], bytes[k + 2], bytes[k + 3]])
}

// Word i, and 0 where no whole word i is left: total, so that no reader of a damaged file can stray.
pub fn word(bytes: &[u8], i: usize) -> u32
    ensures { result ≡ word_at bytes.now i }
{
    if i < bytes.len() / 4 {
        four(bytes, i * 4)
    } else {
        0
    }
}

// Word i where it is known to be there: no test, for loops over a part whose length has been asked for.
pub fn known(bytes: &[u8], i: usize) -> u32
    requires { i * 4 + 4 ≤ length bytes.now }
    ensures { result ≡ word_at bytes.now i }
{
    let start = i * 4;
    four(bytes, start)
}

// The part of the bytes that starts at a word and has a size in words, cut to the words that there are.
#[tactic(auto, unfolding(crate::specs::Words::part_of))]
pub fn part(bytes: &[u8], start: u32, size: u32) -> &[u8]
    ensures { result.now ≡ part_of bytes.now start size }
{
    let words = bytes.len() / 4;
    let first = (start as usize).min(words);
    let count = (size as usize).min(words - first);
    &bytes[first * 4..(first + count) * 4]
}
