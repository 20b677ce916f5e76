// The main promise, on what other languages call.
ghost use Rattle.exports.specs.Right.{ExportsRight};

use session::session_is_right;

// Once `setter_open` gave 0, what `setter_call` answers to any calls is as the text is that they leave.
pub fn exports_are_right()
    ensures { ExportsRight }
{
    session_is_right()
}
