// The main promise, on what the program calls.
ghost use Rattle.session.specs.Whole.{SessionRight};

// Once a book is open, every list of calls is answered as the text is that they leave, set from nothing.
pub fn session_is_right()
    ensures { SessionRight }
{}
