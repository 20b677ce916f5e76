// The laws of the forms: each is the contract of a function that does nothing, so that the check asks for its proof.
ghost use Rattle.wire.specs.Laws.{ReadBack, OnlyRead, StopsRight, WrittenOnce};

// What is written as bytes is read back.
pub fn read_back()
    ensures { ReadBack }
{}

// Only a call's own form is read as that call, and its numbers fit their fields.
pub fn only_read()
    ensures { OnlyRead }
{}

// Reading stops at the first byte that fits no call, or at the end of an unfinished one.
pub fn stops_right()
    ensures { StopsRight }
{}

// Answers are written in one way only.
pub fn written_once()
    ensures { WrittenOnce }
{}
