//! Numbers in decimal digits, with no sign and no leading zero.
ghost use Rattle.std.specs.Prelude.{◌≡◌, ◌≤◌, IfSome};
ghost use Rattle.solver_words.specs.Numbers.{number_of, number_within as number_within_of};

use itoa::Buffer;

/// The number whose text this is. A text that is printed otherwise than it is read is no number's.
fn number(text: &str) -> Option<u64>
    ensures { result ≡ number_of text.now }
{
    let Ok(number) = text.parse::<u64>() else {
        return None;
    };
    let mut buffer = Buffer::new();
    if buffer.format(number) == text {
        Some(number)
    } else {
        None
    }
}

/// The number whose text this is, where it is within the limits.
pub fn number_within(low: u64, high: u64, text: &str) -> Option<u64>
    ensures number { result ≡ number_within_of low high text.now }
    ensures least { IfSome result (λ number. low ≤ number) }
    ensures most { IfSome result (λ number. number ≤ high) }
{
    match number(text) {
        Some(number) if low <= number && number <= high => Some(number),
        _ => None,
    }
}
