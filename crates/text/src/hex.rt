// A call as its bytes in hexadecimal.
ghost use Rattle.std.specs.Prelude.{◌≡◌};
ghost use Rattle.text.specs.Calls.{hex_digit, hex_byte, hex_line, Gives};
ghost use Rattle.text.specs.Words.{words};

use crate::fault::Fault;
use crate::word::Words;
use std::alloc::Global;

fn hex_digit(b: u8) -> Result<u8, Fault>
    ensures { result ≡ hex_digit b }
{
    let digit = char::from(b).to_digit(16).ok_or(Fault::NoByte)?;
    Ok(digit as u8)
}

fn hex_byte(word: &[u8]) -> Result<u8, Fault>
    ensures { result ≡ hex_byte word.now }
{
    let [high, low] = *word.as_array::<2>().ok_or(Fault::NoByte)?;
    Ok(16 * hex_digit(high)? + hex_digit(low)?)
}

pub fn read_bytes(heap: Global, text: &[u8]) -> Result<Vec<u8>, Fault>
    ensures { Gives (hex_line (words text.now)) result }
{
    let mut bytes = Vec::new(heap);
    for word in Words(text) {
        bytes.push(hex_byte(word)?)?;
    }
    Ok(bytes)
}
