// The pieces of a text: tokens, and the braces that open and close what a note or a command holds.
ghost use Rattle.std.specs.Prelude.{◌≡◌, ◌+◌, ◌^◌, ◌<◌, ◌∷◌, ◌++◌, length, IfOk};
ghost use Rattle.std.specs.Iterator.{at_most};
ghost use Rattle.std.specs.Option.{option_to_list};
ghost use Rattle.wire.specs.Kinds.{token_byte};
ghost use Rattle.notation.specs.Pieces.{form_of, depth_after, worded, escaped, first_piece, TakesPiece};
ghost use Rattle.notation.specs.Steps.{behind};

use crate::fault::Fault;
use crate::number::number_to;
use std::alloc::AllocError;
use wire::TokenKind;

#[derive(Clone, Copy, Debug, PartialEq, Eq)]
pub enum Piece {
    Letter(u8),
    Space,
    Mark(u8),
    PageOf(u8),
    // with its opening brace
    Note,
    Command(u8),
    Given,
    // a closing brace
    Close,
}

impl Piece {
    // Its kind, and its number if it has one.
    fn form(self) -> (TokenKind, Option<u8>)
        ensures { token_byte result.0 ∷ option_to_list result.1 ≡ form_of self }
    {
        match self {
            Piece::Letter(b) => (TokenKind::Letter, Some(b)),
            Piece::Space => (TokenKind::Space, None),
            Piece::Mark(n) => (TokenKind::Mark, Some(n)),
            Piece::PageOf(n) => (TokenKind::PageOf, Some(n)),
            Piece::Note => (TokenKind::Note, None),
            Piece::Command(n) => (TokenKind::Command, Some(n)),
            Piece::Given => (TokenKind::Given, None),
            Piece::Close => (TokenKind::End, None),
        }
    }

    // Its form, behind what is there.
    pub fn write(self, out: &mut Vec<u8>) -> Result<(), AllocError>
        ensures { IfOk result (λ _. out.new.items ≡ out.old.items ++ form_of self) }
    {
        let (kind, number) = self.form();
        out.push(kind.into())?;
        if let Some(number) = number {
            out.push(number)?;
        }
        Ok(())
    }

    // How many braces are open behind it.
    pub(crate) fn depth_after(self, depth: usize) -> Result<usize, Fault>
        requires { depth + 1 < 2 ^ 64 }
        ensures { result ≡ depth_after self depth }
    {
        match self {
            Piece::Note | Piece::Command(_) => Ok(depth + 1),
            Piece::Close => depth.checked_sub(1).ok_or(Fault::ClosesNothing),
            _ => Ok(depth),
        }
    }
}

// Behind a backslash: a word, or a command's number.
#[tactic(auto, unfolding(crate::specs::Pieces::worded))]
fn worded(text: &[u8]) -> Result<(Piece, &[u8]), Fault>
    ensures { behind result ≡ worded text.now }
{
    if let Some(rest) = text.strip_prefix(b"note{") {
        return Ok((Piece::Note, rest));
    }
    if let Some(rest) = text.strip_prefix(b"given") {
        return Ok((Piece::Given, rest));
    }
    let (n, rest) = number_to(text, b'{')?;
    Ok((Piece::Command(n), rest))
}

// What stands behind a backslash.
#[tactic(auto, unfolding(crate::specs::Pieces::escaped))]
fn escaped(text: &[u8]) -> Result<(Piece, &[u8]), Fault>
    ensures { behind result ≡ escaped text.now }
{
    match text {
        [] => Err(Fault::NoToken),
        [letter @ (b'\\' | b'{' | b'}'), rest @ ..] => Ok((Piece::Letter(*letter), rest)),
        [b'm', rest @ ..] => {
            let (n, rest) = number_to(rest, b';')?;
            Ok((Piece::Mark(n), rest))
        }
        [b'p', rest @ ..] => {
            let (n, rest) = number_to(rest, b';')?;
            Ok((Piece::PageOf(n), rest))
        }
        _ => worded(text),
    }
}

// The piece that a text begins with, by its first byte, and what stands behind it.
#[tactic(auto, unfolding(crate::specs::Pieces::first_piece))]
fn first_piece(first: u8, rest: &[u8]) -> Result<(Piece, &[u8]), Fault>
    ensures { behind result ≡ first_piece first rest.now }
{
    match first {
        b' ' => Ok((Piece::Space, rest)),
        b'\\' => escaped(rest),
        b'{' => Err(Fault::OpensNothing),
        b'}' => Ok((Piece::Close, rest)),
        letter => Ok((Piece::Letter(letter), rest)),
    }
}

// The pieces of a text, one behind another. A fault is the last.
#[derive(Drop)]
pub struct Pieces<'a>(pub &'a [u8]);

impl Iterator for Pieces<'_> {
    type Item = Result<Piece, Fault>;

    ghost next_gives = { λ s r t. TakesPiece s.0.now r t.0.now };

    ghost remaining = { λ s. at_most (length s.0.now) };

    #[tactic(auto, using(crate::proofs::SoFar::first_shorter))]
    fn next(&mut self) -> Option<Result<Piece, Fault>> {
        let (first, rest) = self.0.split_first()?;
        match first_piece(*first, rest) {
            Ok((piece, rest)) => {
                self.0 = rest;
                Some(Ok(piece))
            }
            Err(fault) => {
                self.0 = &[];
                Some(Err(fault))
            }
        }
    }
}
