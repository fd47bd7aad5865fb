//! Numbers of scripts and of command lines.

ghost use Rattle.std.specs.Prelude.{◌≡◌, ◌<◌, ◌≤◌, ◌+◌, ◌-◌, ◌*◌, IfSome};
ghost use Rattle.std.specs.List.{list_all};
ghost use Rattle.ep_script.specs.Grammar.{number_in as number_between};
ghost use Rattle.ep_script.specs.Parts.{number_of, digits_of, is_digit};

/// The number that a word of 1 to 10 decimal digits spells; none for any other word. Leading zeros are allowed.
pub fn number(word: &[u8]) -> Option<u64>
    ensures { result ≡ number_of word.now }
{
    digits(word, 10)
}

/// The number that a word of 1 to 15 decimal digits spells, as stamps have; none for any other word. Leading zeros are allowed.
pub fn long_number(word: &[u8]) -> Option<u64>
    ensures { result ≡ digits_of 15 word.now }
{
    digits(word, 15)
}

// The number that a word of 1 to so many decimal digits spells; none for any other word.
fn digits(word: &[u8], most: usize) -> Option<u64>
    requires { most ≤ 15 }
    ensures { result ≡ digits_of most word.now }
{
    if word.is_empty() || word.len() > most || !are_digits(word) {
        return None;
    }
    let mut value = 0u64;
    for digit in word {
        value = with_digit(value, *digit);
    }
    Some(value)
}

// The number with one more digit.
fn with_digit(value: u64, digit: u8) -> u64
    requires small { value < 100000000000000 }
    requires low { 48 ≤ digit }
    ensures { result ≡ 10 * value + (digit - 48) }
{
    10 * value + u64::from(digit - b'0')
}

/// The number that a word of 1 to 10 decimal digits spells, where it is in this range; none for any other word.
pub fn number_in(word: &[u8], least: u64, most: u64) -> Option<u64>
    ensures value { result ≡ number_between least most word.now }
    ensures in_range { IfSome result (λ n. (least ≤ n) × (n ≤ most)) }
{
    let number = number(word)?;
    if number >= least && number <= most {
        Some(number)
    } else {
        None
    }
}

fn are_digits(word: &[u8]) -> bool
    ensures { result ≡ list_all is_digit word.now }
{
    word.iter().all(|byte| is_digit_byte(*byte))
}

fn is_digit_byte(byte: u8) -> bool
    ensures { result ≡ is_digit byte }
{
    byte >= b'0' && byte <= b'9'
}
