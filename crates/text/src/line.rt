// The lines of a file.
ghost use Rattle.std.specs.Prelude.{◌≡◌};
ghost use Rattle.text.specs.Lines.{line_of};

// The line without its end, which is a line feed or a carriage return and one.
#[tactic(auto, unfolding(crate::specs::Lines::line_of))]
pub fn without_end(line: &[u8]) -> &[u8]
    ensures { result.now ≡ line_of line.now }
{
    match line {
        [line @ .., b'\r', b'\n'] | [line @ .., b'\n'] => line,
        _ => line,
    }
}
