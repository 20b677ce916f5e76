// The session for other languages: slices are lent, one by one as C hands them over, and one number comes back.
// A number below 0 is a refusal: -(its number * 2^32 + its place).
#![tactic(auto)]

mod promise;

ghost use Rattle.std.specs.Prelude.{◌≡◌, ℕ, ◌^◌, ◌<◌, pos, MatchOption};
ghost use Rattle.meaning.specs.Calls.{Answer};
ghost use Rattle.wire.specs.Bytes.{answer_bytes};
ghost use Rattle.wire.specs.Refusals.{refusal_number, refusal_place};
ghost use Rattle.store.specs.Opened.{tokens_asked, rest_asked};
ghost use Rattle.exports.specs.Numbers.{refusing, asking_by, asked_number, opening_number, told_number, OpensAs, AnswersAs};

pub use promise::exports_are_right;
use session::{Asked, Limits, Looks, Opening, ROOM, call, open};
use wire::{AnswerKind, LETTERS, Refusal};

// By number and place, and no struct: an answer has just its bytes for them, and a `Refusal` has methods.
fn below_zero(number: u8, place: u32) -> i64
    ensures { result ≡ refusing number place }
{
    -(i64::from(number) * 4_294_967_296 + i64::from(place))
}

// No `From`: neither type is this crate's.
fn refused_by(why: Refusal) -> i64
    ensures { result ≡ refusing (refusal_number why) (refusal_place why) }
{
    below_zero(why.number(), why.place())
}

// None where a limit is out of range: the looks are in range.
fn asked_by(limits: Limits) -> Option<Asked>
    ensures { result ≡ asking_by limits }
{
    let looks = Looks {
        widths: [1; LETTERS],
        width: 1,
        rows: 1,
    };
    Asked::of(&Opening { limits, looks })
}

// A part of the memory that limits ask for.
fn asked_part<F: Fn(Asked) -> usize>(limits: Limits, part: F) -> i64
    requires callable { F.IsAlwaysCallable part }
    requires fits { MatchOption (asking_by limits) (Unit {0}) (λ asked. (n : ℕ) → F.post part asked n → n < 2 ^ 63) }
    ensures { MatchOption (asking_by limits) (result ≡ refusing 3 2) (λ asked. (n : ℕ) × F.post part asked n × (result ≡ pos n)) }
{
    match asked_by(limits) {
        Some(asked) => part(asked) as i64,
        None => refused_by(Refusal::BadOpening),
    }
}

// How many bytes are to be lent for tokens. The limits stand apart in each signature, as C hands them over.
#[unsafe(no_mangle)]
pub extern "C" fn setter_tokens_asked(
    paragraphs: u32,
    tokens: u32,
    definitions: u32,
    bulk: u32,
) -> i64
    ensures { result ≡ asked_number tokens_asked (record { paragraphs = paragraphs; tokens = tokens; definitions = definitions; bulk = bulk }) }
{
    let limits = Limits {
        paragraphs,
        tokens,
        definitions,
        bulk,
    };
    asked_part(limits, |asked| asked.tokens)
}

// How many numbers of 64 bits are to be lent for the rest.
#[unsafe(no_mangle)]
pub extern "C" fn setter_rest_asked(
    paragraphs: u32,
    tokens: u32,
    definitions: u32,
    bulk: u32,
) -> i64
    ensures { result ≡ asked_number rest_asked (record { paragraphs = paragraphs; tokens = tokens; definitions = definitions; bulk = bulk }) }
{
    let limits = Limits {
        paragraphs,
        tokens,
        definitions,
        bulk,
    };
    asked_part(limits, |asked| asked.rest)
}

fn opening_number(opened: Result<(), Refusal>) -> i64
    ensures { result ≡ opening_number opened }
{
    opened.map_or_else(refused_by, |()| 0)
}

// 0 where the book is open. There must be just 95 widths.
#[unsafe(no_mangle)]
pub extern "C" fn setter_open(
    tokens: &mut [u8],
    rest: &mut [u64],
    paragraphs: u32,
    limit_tokens: u32,
    definitions: u32,
    bulk: u32,
    widths: &[u8],
    width: u32,
    rows: u32,
) -> i64
    ensures { OpensAs (record { paragraphs = paragraphs; tokens = limit_tokens; definitions = definitions; bulk = bulk }) (record { widths = widths.entry.now; width = width; rows = rows }) tokens.old rest.old tokens.new rest.new result }
{
    let Ok(widths) = <[u8; LETTERS]>::try_from(widths) else {
        return refused_by(Refusal::BadOpening);
    };
    let limits = Limits {
        paragraphs,
        tokens: limit_tokens,
        definitions,
        bulk,
    };
    let looks = Looks {
        widths,
        width,
        rows,
    };
    opening_number(open(tokens, rest, &Opening { limits, looks }))
}

// The number of an answer: the session answers in bytes alone, so a refusal is read back from them.
// `text` takes them apart to show them; one reader in `wire` for both would have a contract longer than either.
fn told_number(answer: &[u8]) -> i64
    ensures { (a : Answer) → answer.now ≡ answer_bytes a → result ≡ told_number a }
{
    match answer {
        [kind, number, p0, p1, p2, p3] if *kind == u8::from(AnswerKind::Refused) => {
            below_zero(*number, u32::from_be_bytes([*p0, *p1, *p2, *p3]))
        }
        _ => answer.len() as i64,
    }
}

// How many bytes of `out` the answer has; a refusal stands there too. 0 where `out` has no room for the longest answer.
#[unsafe(no_mangle)]
pub extern "C" fn setter_call(
    tokens: &mut [u8],
    rest: &mut [u64],
    bytes: &[u8],
    out: &mut [u8],
) -> i64
    ensures { AnswersAs tokens.old rest.old bytes.now out.old tokens.new rest.new out.new result }
{
    match call(tokens, rest, bytes, out) {
        Some(written) => told_number(&out[..written]),
        None => 0,
    }
}

// How many bytes `out` must have.
#[unsafe(no_mangle)]
pub extern "C" fn setter_room() -> i64
    ensures { result ≡ pos 163858 }
{
    ROOM as i64
}
