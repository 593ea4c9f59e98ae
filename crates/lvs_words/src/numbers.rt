//! Numbers among the words.

ghost use Rattle.std.specs.Prelude.{◌≡◌, ◌≤◌, IfSome};
ghost use Rattle.std.specs.Str.{all_ascii_digits};
ghost use Rattle.lvs_words.specs.Numbers.{number_in};

const DIGITS: usize = 20;

/// The number that the word is, of one to twenty decimal digits, where it isn't below `low` nor
/// above `high`.
pub fn number_in(low: u64, high: u64, word: &str) -> Option<u64>
    ensures number { result ≡ number_in low high word.now }
    ensures low { IfSome result (λ n. low ≤ n) }
    ensures high { IfSome result (λ n. n ≤ high) }
{
    if word.len() > DIGITS || !are_digits(word) {
        return None;
    }
    let Ok(number) = word.parse::<u64>() else {
        return None;
    };
    if number < low || high < number {
        return None;
    }
    Some(number)
}

fn are_digits(word: &str) -> bool
    ensures { result ≡ all_ascii_digits word.now }
{
    let mut rest = word.as_bytes();
    'digits: while let [byte, more @ ..] = rest {
        if !byte.is_ascii_digit() {
            return false;
        }
        rest = more;
    }
    true
}
