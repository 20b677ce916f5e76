// Tokens read into atoms, from the start of a row on.
ghost use Rattle.std.specs.Prelude.{◌≡◌, ◌<◌, length, IfSome};
ghost use Rattle.std.specs.Option.{option_map};
ghost use Rattle.wire.specs.Bytes.{tokens_of};
ghost use Rattle.wire.specs.Cut.{token_of};
ghost use Rattle.words.specs.Atoms.{numbers_of};
ghost use Rattle.words.specs.Reads.{text_letter, is_note, note_text, stage_atom, fitting, Reads, ReadsSome, Writes, SmallIfAny, AtomPlainIfAny};

use crate::atoms::{GAP, NOTE};
use wire::{Token, Tokens};

// What a token is in a note, if it is a letter or a space.
fn text_letter(token: Token<'_>) -> Option<u8>
    ensures value { result ≡ text_letter (token_of token.entry) }
    ensures small { IfSome result (λ letter. letter < 256) }
{
    match token {
        Token::Letter(c) => Some(c),
        Token::Space => Some(b' '),
        _ => None,
    }
}

fn is_note(token: Token<'_>) -> bool
    ensures { result ≡ is_note (token_of token.entry) }
{
    matches!(token, Token::Note(_))
}

// A note's letters and spaces: how many; None where there is no room for all, or a token is neither. Notes in it are left out.
// They are counted by hand, since after `get_mut`, or after `zip` over `iter_mut`, a proof knows no element of the slice.
fn write_text(tokens: &[u8], row: &mut [u64]) -> Option<usize>
    ensures text { Writes (note_text (tokens_of tokens.now)) row.old row.new result }
    ensures small { SmallIfAny (fitting (length row.old) (note_text (tokens_of tokens.now))) }
{
    let mut n = 0;
    for token in Tokens(tokens) {
        if is_note(token) {
            continue;
        }
        let letter = text_letter(token)?;
        if n == row.len() {
            return None;
        }
        row[n] = u64::from(letter);
        n += 1;
    }
    Some(n)
}

// The numbers of a token's atom: how many; None where there is no room for all, or the stage has no such atom.
fn write_atom(token: Token<'_>, row: &mut [u64]) -> Option<usize>
    ensures numbers { Writes (option_map numbers_of (stage_atom (token_of token.entry))) row.old row.new result }
    ensures plain { IfSome result (λ _. AtomPlainIfAny (stage_atom (token_of token.entry))) }
{
    if row.is_empty() {
        return None;
    }
    match token {
        Token::Letter(c) => row[0] = u64::from(c),
        Token::Space => row[0] = GAP,
        Token::Note(inside) => {
            let letters = write_text(inside, &mut row[1..])?;
            row[0] = NOTE + letters as u64;
            return Some(1 + letters);
        }
        _ => return None,
    }
    Some(1)
}

fn write_atoms(tokens: &[u8], row: &mut [u64]) -> Option<usize>
    ensures { ReadsSome tokens.now row.old row.new result }
{
    let mut n = 0;
    for token in Tokens(tokens) {
        n += write_atom(token, &mut row[n..])?;
    }
    Some(n)
}

// The atoms of letters, spaces and notes, one number each, and a note one besides those in it: how many numbers, or None, and then there are only zeros.
pub fn read_atoms(tokens: &[u8], row: &mut [u64]) -> Option<usize>
    ensures { Reads tokens.now (length row.old) row.old row.new result }
{
    let read = write_atoms(tokens, row);
    if read.is_none() {
        row.fill(0);
    }
    read
}
