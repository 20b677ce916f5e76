// Whether tokens are good for the stage, and how much they count.
ghost use Rattle.std.specs.Prelude.{◌≡◌};
ghost use Rattle.wire.specs.Stage.{stage_tokens};
ghost use Rattle.wire.specs.Fit.{kind_of, together, noted, Fits, MeasuresOne, Measures};

use crate::token::{Token, Tokens};

// What tokens count.
#[derive(Clone, Copy, Debug, Default, PartialEq, Eq)]
pub struct Measure {
    // of a book's tokens
    pub size: usize,
    // of what a paragraph may be
    pub bulk: usize,
    // in a note, where notes are left out
    pub plain: usize,
}

impl Measure {
    // A letter or a space.
    const ONE: Measure = Measure {
        size: 1,
        bulk: 1,
        plain: 1,
    };

    fn and(self, other: Measure) -> Measure
        requires { Fits (together self other) }
        ensures { result ≡ together self other }
    {
        Measure {
            size: self.size + other.size,
            bulk: self.bulk + other.bulk,
            plain: self.plain + other.plain,
        }
    }

    // A note with this in it: notes in it are in its size alone.
    fn noted(self) -> Measure
        requires { Fits (noted self) }
        ensures { result ≡ noted self }
    {
        Measure {
            size: 2 + self.size,
            bulk: 1 + self.plain,
            plain: 0,
        }
    }
}

// The stage can do letters, spaces and notes.
#[tactic(auto, unfolding(crate::specs::Stage::stage_tokens))]
fn stage_can(token: Token<'_>) -> bool
    ensures { result ≡ stage_tokens (kind_of token.entry) }
{
    matches!(token, Token::Letter(_) | Token::Space | Token::Note(_))
}

// None where the token is not good.
#[cycle(token_measure_tokens_measure)]
fn token_measure(token: Token<'_>, depth: u8) -> Option<Measure>
    ensures { MeasuresOne token.entry depth result }
{
    if !stage_can(token) {
        return None;
    }
    match token {
        Token::Letter(c) => (33..=126).contains(&c).then_some(Measure::ONE),
        Token::Note(inside) => {
            let inside = tokens_measure(inside, depth.checked_sub(1)?)?;
            Some(inside.noted())
        }
        _ => Some(Measure::ONE),
    }
}

// What tokens count, if all are good for the stage and nested at most so deep.
#[cycle(token_measure_tokens_measure)]
pub fn tokens_measure(tokens: &[u8], depth: u8) -> Option<Measure>
    ensures { Measures tokens.now depth result }
{
    let mut measure = Measure::default();
    for token in Tokens(tokens) {
        measure = measure.and(token_measure(token, depth)?);
    }
    Some(measure)
}
