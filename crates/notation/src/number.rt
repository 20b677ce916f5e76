// Numbers in decimal digits.
ghost use Rattle.std.specs.Prelude.{◌≡◌, ◌^◌, ◌≤◌, length, min, cond, Some, None};
ghost use Rattle.std.specs.Char.{is_ascii_digit};
ghost use Rattle.std.specs.List.{prefix_len};
ghost use Rattle.std.specs.Str.{all_ascii_digits};
ghost use Rattle.notation.specs.Numbers.{value_of, number_to};
ghost use Rattle.notation.specs.Steps.{behind};

use crate::fault::Fault;

// What digits say, or 2^32 for anything larger; None where a byte is no digit.
pub fn digits_value(digits: &[u8]) -> Option<u64>
    ensures { result ≡ cond (all_ascii_digits digits.now) (Some (min (value_of digits.now) (2 ^ 32))) None }
{
    let mut n = 0;
    for digit in digits {
        let digit = char::from(*digit).to_digit(10)?;
        // What is too large stays so, whatever digits follow.
        n = (10 * n + u64::from(digit)).min(1 << 32);
    }
    Some(n)
}

// How many digits come first.
fn digits_len(text: &[u8]) -> usize
    ensures value { result ≡ prefix_len is_ascii_digit text.now }
    ensures within { result ≤ length text.now }
{
    text.iter().take_while(|b| b.is_ascii_digit()).count()
}

// A number up to 255 in one digit or more, with an end byte, and what stands behind that.
#[tactic(auto, using(crate::proofs::Digits::digits_first), unfolding(crate::specs::Numbers::number_to))]
pub fn number_to(text: &[u8], end: u8) -> Result<(u8, &[u8]), Fault>
    ensures { behind result ≡ number_to end text.now }
{
    let (digits, rest) = text.split_at(digits_len(text));
    if digits.is_empty() {
        return Err(Fault::NoToken);
    }
    let n = digits_value(digits).ok_or(Fault::NoToken)?;
    let rest = rest.strip_prefix(&[end]).ok_or(Fault::NoToken)?;
    let n = u8::try_from(n).map_err(|_| Fault::TooLarge)?;
    Ok((n, rest))
}
