// A call is read, looked at by the list of refusals, carried out, and answered.
ghost use Rattle.std.specs.Prelude.{◌≡◌, ◌≤◌, MatchResult, length};
ghost use Rattle.wire.specs.Reads.{call_of, WholeTokens};
ghost use Rattle.session.specs.Answering.{Measured, IsUnfit, Wished, Performs, Replies, Answers};

use layout::{Wanted, count_pages, show_rows};
use store::{Content, Edit, change, look};
use wire::{Answer, Call, Measure, Refusal, read_call, tokens_measure, write_answer};

// What the longest answer takes: 8 rows of 4,096 letters, each with its place.
pub const ROOM: usize = 163_858;

// How many rows may be shown at once.
const MOST_ROWS: u16 = 8;

const LAST_NAME: u16 = 255;

// How deep tokens may be nested.
const DEPTH: u8 = 16;

// What a call asks of the book.
#[derive(Clone, Copy)]
enum Wish<'a> {
    Edit(Edit<'a>),
    Show(Wanted),
    // on which page a name is: no text has names yet
    Find,
    // how many pages there are
    Count,
}

// Tokens that the stage can do, with what they count.
fn content(bytes: &[u8]) -> Result<Content<'_>, Refusal>
    ensures { MatchResult result (Measured bytes.now) (IsUnfit bytes.now) }
{
    let Measure { size, bulk, .. } = tokens_measure(bytes, DEPTH).ok_or(Refusal::Unfit)?;
    Ok(Content { bytes, size, bulk })
}

// What is asked for, if the stage can do it and its numbers are in range.
fn wish_of(call: Call<'_>) -> Result<Wish<'_>, Refusal>
    requires { WholeTokens call }
    ensures { Wished (call_of call.entry) result }
{
    match call {
        Call::Put(k, bytes) => Ok(Wish::Edit(Edit::Put(k, content(bytes)?))),
        Call::PutIn(k, bytes) => Ok(Wish::Edit(Edit::PutIn(k, content(bytes)?))),
        Call::Cut(k) => Ok(Wish::Edit(Edit::Cut(k))),
        Call::Show(page, row, count) if count <= MOST_ROWS => Ok(Wish::Show(Wanted {
            page,
            row,
            count: count as u8,
        })),
        Call::WhereIs(name) if name <= LAST_NAME => Ok(Wish::Find),
        Call::HowMany => Ok(Wish::Count),
        _ => Err(Refusal::Unfit),
    }
}

// How many bytes of an answer were written.
fn perform(
    tokens: &mut [u8],
    rest: &mut [u64],
    call: Call<'_>,
    out: &mut [u8],
) -> Result<usize, Refusal>
    requires { (WholeTokens call) × (163858 ≤ length out.old) }
    ensures { Performs tokens.old rest.old (call_of call.entry) out.old tokens.new rest.new out.new result }
{
    let answer = match wish_of(call)? {
        Wish::Edit(edit) => Answer::from(change(tokens, rest, edit)),
        Wish::Show(wanted) => return show_rows(tokens, rest, wanted, out),
        Wish::Find => {
            look(tokens, rest).ok_or(Refusal::BadOpening)?;
            Answer::Numbers(0, 0)
        }
        // 1, as all page numbers are right: there are none yet.
        Wish::Count => Answer::Numbers(count_pages(tokens, rest)?, 1),
    };
    Ok(write_answer(out, answer))
}

fn carry_out(
    tokens: &mut [u8],
    rest: &mut [u64],
    bytes: &[u8],
    out: &mut [u8],
) -> Result<usize, Refusal>
    requires { 163858 ≤ length out.old }
    ensures { Replies tokens.old rest.old bytes.now out.old tokens.new rest.new out.new result }
{
    let call = read_call(bytes)?;
    perform(tokens, rest, call, out)
}

// How many bytes the answer has; None, and nothing is written, where `out` has no room for the longest answer.
pub fn call(tokens: &mut [u8], rest: &mut [u64], bytes: &[u8], out: &mut [u8]) -> Option<usize>
    ensures { Answers tokens.old rest.old bytes.now out.old tokens.new rest.new out.new result }
{
    if out.len() < ROOM {
        return None;
    }
    match carry_out(tokens, rest, bytes, out) {
        Ok(written) => Some(written),
        Err(why) => Some(write_answer(out, Answer::Refused(why))),
    }
}
