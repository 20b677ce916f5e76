// Calls as bytes: a byte for the call, its numbers in two bytes each, a page's in four, and tokens to the end.
ghost use Rattle.std.specs.Prelude.{◌≡◌, ◌≢◌, ◌+◌, ◌∷◌, length, min, MatchResult};
ghost use Rattle.wire.specs.Kinds.{call_byte};
ghost use Rattle.wire.specs.Reads.{ReadsTokens, Reads};

use crate::kind::CallKind;
use crate::refusal::Unreadable;
use crate::token::Extent;

#[derive(Clone, Copy, Debug, PartialEq, Eq)]
pub enum Call<'a> {
    Put(u16, &'a [u8]),
    Cut(u16),
    Define(u16, &'a [u8]),
    // page, first row, how many rows
    Show(u32, u16, u16),
    WhereIs(u16),
    HowMany,
    PutIn(u16, &'a [u8]),
}

// Behind a call's first byte there are N bytes and no more, or else this is where it ceases to be a call.
fn exactly<const N: usize>(fields: &[u8]) -> Result<&[u8; N], Unreadable>
    ensures { MatchResult result (λ array. (length fields.now ≡ N) × (array.now ≡ fields.now)) (λ stop. (length fields.now ≢ N) × (stop.at ≡ 1 + min (length fields.now) N)) }
{
    fields.as_array().ok_or(Unreadable {
        at: 1 + fields.len().min(N),
    })
}

fn number_and_tokens(fields: &[u8]) -> Result<(u16, &[u8]), Unreadable>
    ensures { ReadsTokens fields.now result }
{
    let (number, tokens) = fields.split_first_chunk().ok_or(Unreadable {
        at: 1 + fields.len(),
    })?;
    match Extent::of(tokens) {
        Extent::End => Ok((u16::from_be_bytes(*number), tokens)),
        Extent::Close(n) | Extent::Break(n) => Err(Unreadable { at: 3 + n }),
    }
}

// A call of a kind, by what stands behind its first byte.
fn read_fields(kind: CallKind, fields: &[u8]) -> Result<Call<'_>, Unreadable>
    ensures { Reads (call_byte kind ∷ fields.now) result }
{
    match kind {
        CallKind::Put => {
            let (k, tokens) = number_and_tokens(fields)?;
            Ok(Call::Put(k, tokens))
        }
        CallKind::Cut => Ok(Call::Cut(u16::from_be_bytes(*exactly(fields)?))),
        CallKind::Define => {
            let (k, tokens) = number_and_tokens(fields)?;
            Ok(Call::Define(k, tokens))
        }
        CallKind::Show => {
            let [p0, p1, p2, p3, r0, r1, c0, c1] = *exactly::<8>(fields)?;
            let page = u32::from_be_bytes([p0, p1, p2, p3]);
            let row = u16::from_be_bytes([r0, r1]);
            let count = u16::from_be_bytes([c0, c1]);
            Ok(Call::Show(page, row, count))
        }
        CallKind::WhereIs => Ok(Call::WhereIs(u16::from_be_bytes(*exactly(fields)?))),
        CallKind::HowMany => {
            exactly::<0>(fields)?;
            Ok(Call::HowMany)
        }
        CallKind::PutIn => {
            let (k, tokens) = number_and_tokens(fields)?;
            Ok(Call::PutIn(k, tokens))
        }
    }
}

// The call that bytes are, or the place where they cease to be one.
pub fn read_call(bytes: &[u8]) -> Result<Call<'_>, Unreadable>
    ensures { Reads bytes.now result }
{
    let stop = Unreadable { at: 0 };
    let (byte, fields) = bytes.split_first().ok_or(stop)?;
    let kind = CallKind::try_from(*byte).or(Err(stop))?;
    read_fields(kind, fields)
}
