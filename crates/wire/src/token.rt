// Tokens as bytes: a byte for the kind, a letter, name or command in a byte, and what a note or a command holds up to an end byte.
ghost use Rattle.std.specs.Prelude.{◌≡◌, ◌∷◌, length};
ghost use Rattle.std.specs.Iterator.{at_most};
ghost use Rattle.std.specs.Option.{option_map};
ghost use Rattle.wire.specs.Kinds.{token_byte, Numbered};
ghost use Rattle.wire.specs.Cut.{extent_of, enclosed_in, BeginsWith, TakesFirst};

use crate::kind::TokenKind;

// The letters 32 to 126, each of which has a width.
pub const LETTERS: usize = 95;

#[derive(Clone, Copy, Debug, PartialEq, Eq)]
pub enum Token<'a> {
    Letter(u8),
    Space,
    Mark(u8),
    PageOf(u8),
    Note(&'a [u8]),
    Command(u8, &'a [u8]),
    Given,
}

// How far bytes are tokens: to their end, to an end byte that closes nothing before it, or to a place where a byte fits no token or is missing.
#[derive(Clone, Copy)]
pub(crate) enum Extent {
    End,
    Close(usize),
    Break(usize),
}

impl Extent {
    // A count of open notes and commands is enough: no stack is needed, however deep they are.
    pub(crate) fn of(bytes: &[u8]) -> Extent
        ensures { result ≡ extent_of bytes.now }
    {
        let mut rest = bytes;
        let mut depth = 0usize;
        while let [byte, ..] = rest {
            let at = bytes.len() - rest.len();
            let Ok(kind) = TokenKind::try_from(*byte) else {
                return Extent::Break(at);
            };
            let Some(behind) = kind.behind(rest) else {
                return Extent::Break(bytes.len());
            };
            match kind {
                TokenKind::Note | TokenKind::Command => depth += 1,
                TokenKind::End if depth == 0 => return Extent::Close(at),
                TokenKind::End => depth -= 1,
                _ => {}
            }
            rest = behind;
        }
        if depth == 0 {
            Extent::End
        } else {
            Extent::Break(bytes.len())
        }
    }
}

// What a note or a command holds, and what stands behind its end byte.
fn enclosed(bytes: &[u8]) -> Option<(&[u8], &[u8])>
    ensures { option_map (λ p. (p.0.now, p.1.now)) result ≡ enclosed_in bytes.now }
{
    match Extent::of(bytes) {
        Extent::Close(n) => Some((&bytes[..n], &bytes[n + 1..])),
        Extent::End | Extent::Break(_) => None,
    }
}

// The first token, and what stands behind it; None at the end, and where bytes are no token. This, `numbered_token` and `Tokens` go into each loop
// over tokens: a token that is handed on in memory takes twice the time.
#[inline(always)]
pub fn next_token(bytes: &[u8]) -> Option<(Token<'_>, &[u8])>
    ensures { BeginsWith bytes.now result }
{
    let (byte, rest) = bytes.split_first()?;
    match TokenKind::try_from(*byte).ok()? {
        TokenKind::Space => Some((Token::Space, rest)),
        TokenKind::Note => {
            let (inside, rest) = enclosed(rest)?;
            Some((Token::Note(inside), rest))
        }
        TokenKind::Given => Some((Token::Given, rest)),
        kind => numbered_token(kind, rest),
    }
}

// A token whose kind is followed by a letter, or by the number of a name or a command; an end byte is none. Were these kinds told apart in one match with
// the others, a space would take two jumps by tables.
#[inline(always)]
fn numbered_token(kind: TokenKind, bytes: &[u8]) -> Option<(Token<'_>, &[u8])>
    requires { Numbered kind }
    ensures { BeginsWith (token_byte kind ∷ bytes.now) result }
{
    let (number, rest) = bytes.split_first()?;
    match kind {
        TokenKind::Letter => Some((Token::Letter(*number), rest)),
        TokenKind::Mark => Some((Token::Mark(*number), rest)),
        TokenKind::PageOf => Some((Token::PageOf(*number), rest)),
        TokenKind::Command => {
            let (inside, rest) = enclosed(rest)?;
            Some((Token::Command(*number, inside), rest))
        }
        _ => None,
    }
}

// The tokens that bytes begin with, one behind another.
#[derive(Drop)]
pub struct Tokens<'a>(pub &'a [u8]);

impl<'a> Iterator for Tokens<'a> {
    type Item = Token<'a>;

    ghost next_gives = { λ s r t. TakesFirst s.0.now r t.0.now };

    ghost remaining = { λ s. at_most (length s.0.now) };

    #[inline(always)]
    fn next(&mut self) -> Option<Token<'a>> {
        let (token, rest) = next_token(self.0)?;
        self.0 = rest;
        Some(token)
    }
}
