// Words and numbers at the front of a text, each with what stands behind it.
ghost use Rattle.std.specs.Prelude.{◌≡◌, ℕ, ◌≤◌, ◌<◌, [], ◌∷◌, length, cond, Some, None, nat_lt, Result, MatchOption, position};
ghost use Rattle.std.proofs.Common.{rules};
ghost use Rattle.std.specs.Option.{option_map};
ghost use Rattle.std.specs.Iterator.{YieldsFirstRef, item_count};
ghost use Rattle.std.specs.List.{prefix_len};
ghost use Rattle.std.specs.Result.{result_map_both, result_ok};
ghost use Rattle.text.specs.Words.{no_space, words, first_word, behind_word, words_behind, parted, within, number_of, next_number, after_word, ended, last_number, number_and_text, left};
ghost use Rattle.notation.specs.Steps.{behind};

use crate::fault::Fault;
use notation::digits_value;
use std::num::TryFromIntError;

// A type that a number is read as.
pub trait Number: TryFrom<u64, Error = TryFromIntError> {
    // The first number that is too large.
    ghost bound: { ℕ };

    ghost value: { Self → ℕ };

    ghost fits: { (bound ≤ 4294967296) × ((n : ℕ) (r : _) → Self.try_from_gives n r → option_map value (result_ok r) ≡ cond (nat_lt n bound) (Some n) None) };
}

impl Number for u8 {
    ghost bound = { 256 };

    ghost value = { λ n. n };

    ghost fits = { Prim.search rules };
}

impl Number for u16 {
    ghost bound = { 65536 };

    ghost value = { λ n. n };

    ghost fits = { Prim.search rules };
}

impl Number for u32 {
    ghost bound = { 4294967296 };

    ghost value = { λ n. n };

    ghost fits = { Prim.search rules };
}

// How many bytes come before the first space.
fn word_len(text: &[u8]) -> usize
    ensures value { result ≡ prefix_len no_space text.now }
    ensures within { result ≤ length text.now }
{
    text.iter().take_while(|b| **b != b' ').count()
}

// Where the first word begins; None where only spaces are left.
fn word_start(text: &[u8]) -> Option<usize>
    ensures { result ≡ position no_space text.now }
{
    text.iter().position(|b| *b != b' ')
}

// What comes before the first space, which may be nothing, and the rest.
#[tactic(auto, using(crate::proofs::Pieces::take_word, crate::proofs::Pieces::words_behind_word), unfolding(crate::specs::Words::behind_word))]
pub fn first_word(text: &[u8]) -> (&[u8], &[u8])
    ensures front { result.0.now ≡ first_word text.now }
    ensures back { result.1.now ≡ behind_word text.now }
    ensures words { words result.1.now ≡ words_behind text.now }
{
    text.split_at(word_len(text))
}

// None where only spaces are left.
pub fn next_word(text: &[u8]) -> Option<(&[u8], &[u8])>
    ensures words { MatchOption result (words text.now ≡ []) (λ p. words text.now ≡ p.0.now ∷ words p.1.now) }
    ensures exact { option_map (λ p. (p.0.now, p.1.now)) result ≡ parted text.now }
{
    let start = word_start(text)?;
    Some(first_word(&text[start..]))
}

fn narrow<T: Number>(n: u64) -> Result<T, Fault>
    ensures { result_map_both T.value (λ e. e) result ≡ within T.bound n }
{
    T::try_from(n).map_err(|_| Fault::TooLarge)
}

#[tactic(auto, unfolding(crate::specs::Words::number_of))]
fn read_number<T: Number>(word: &[u8]) -> Result<T, Fault>
    ensures { result_map_both T.value (λ e. e) result ≡ number_of T.bound word.now }
{
    narrow(digits_value(word).ok_or(Fault::NoNumber)?)
}

// The words of a text that are left to be read.
#[derive(Drop)]
pub struct Words<'a>(pub &'a [u8]);

impl<'a> Iterator for Words<'a> {
    type Item = &'a [u8];

    ghost next_gives = { YieldsFirstRef (λ s. words s.0.now) };

    ghost remaining = { item_count (λ s. words s.0.now) };

    fn next(&mut self) -> Option<&'a [u8]> {
        let (word, rest) = next_word(self.0)?;
        self.0 = rest;
        Some(word)
    }
}

impl Words<'_> {
    // The next word is to be this one.
    pub fn due(&mut self, word: &[u8]) -> Result<(), Fault>
        ensures { result_map_both (λ _. words self.new.0.now) (λ e. e) result ≡ after_word word.now (words self.old.0.now) }
    {
        match self.next() {
            Some(next) if next == word => Ok(()),
            _ => Err(Fault::Unknown),
        }
    }

    // No word may be left. A match says more plainly than a chain that it is None which is right.
    pub fn end(mut self) -> Result<(), Fault>
        ensures { result ≡ ended (words self.entry.0.now) }
    {
        match self.next() {
            None => Ok(()),
            Some(_) => Err(Fault::TooMuch),
        }
    }

    pub fn number<T: Number>(&mut self) -> Result<T, Fault>
        ensures { left T.value result self.new.0.now ≡ next_number T.bound (words self.old.0.now) }
    {
        read_number(self.next().ok_or(Fault::NumberMissing)?)
    }

    pub fn last_number<T: Number>(mut self) -> Result<T, Fault>
        ensures { result_map_both T.value (λ e. e) result ≡ last_number T.bound (words self.entry.0.now) }
    {
        let n = self.number::<u32>()?;
        self.end()?;
        narrow(n.into())
    }
}

// A number that two bytes can carry, and what stands behind one space after it.
pub fn number_and_text(text: &[u8]) -> Result<(u16, &[u8]), Fault>
    ensures { behind result ≡ number_and_text text.now }
{
    let (word, rest) = next_word(text).ok_or(Fault::NumberMissing)?;
    let n = read_number(word)?;
    match rest {
        [] => Ok((n, rest)),
        [_, rest @ ..] => Ok((n, rest)),
    }
}
