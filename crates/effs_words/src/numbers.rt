//! Numbers of the command line.

ghost use Rattle.std.specs.Prelude.{◌≡◌, ◌≤◌, IfSome};
ghost use Rattle.effs_words.specs.Numbers as spec;

/// The most digits that a number has.
const MAX_DIGITS: usize = 10;

/// The number that a word is, where it is one from `low` to `high`.
pub fn number_in(word: &[u8], low: u64, high: u64) -> Option<u64>
    ensures value { result ≡ spec.number_in low high word.now }
    ensures within { IfSome result (λ n. n ≤ high) }
{
    if word.is_empty() || word.len() > MAX_DIGITS {
        return None;
    }
    let mut value: u64 = 0;
    for digit in word {
        if !digit.is_ascii_digit() {
            return None;
        }
        value = value * 10 + u64::from(*digit - b'0');
    }
    if low <= value && value <= high {
        Some(value)
    } else {
        None
    }
}
