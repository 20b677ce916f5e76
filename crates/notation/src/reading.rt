// A text is read from left to right, and what it says is written as bytes on the way. A count of open braces is enough: no stack is needed, however deep they are.
ghost use Rattle.std.specs.Prelude.{◌≡◌, ◌∷◌, codes};
ghost use Rattle.std.specs.Str.{bytes_eq};
ghost use Rattle.notation.specs.Noted.{ReadsOnto};

use crate::fault::Fault;
use crate::piece::Pieces;

fn says_none(text: &[u8]) -> bool
    ensures { result ≡ bytes_eq text.now (92 ∷ codes "none") }
{
    matches!(text, b"\\none")
}

// Appends the form of the tokens that the text says. What it has appended where it fails counts for nothing.
pub fn read_tokens(out: &mut Vec<u8>, text: &[u8]) -> Result<(), Fault>
    ensures { ReadsOnto text.now out.old.items out.new.items result }
{
    if says_none(text) {
        return Ok(());
    }
    let mut depth = 0;
    for piece in Pieces(text) {
        let piece = piece?;
        depth = piece.depth_after(depth)?;
        piece.write(out)?;
    }
    if depth > 0 {
        return Err(Fault::Unclosed);
    }
    Ok(())
}
