// The laws of lines and of what is shown: each is the contract of a function that does nothing, so that the check asks for its proof.
ghost use Rattle.text.specs.Laws.{AnswersShown, LinesFormed};

// Of an answer's bytes, the answer is shown.
pub fn answers_shown()
    ensures { AnswersShown }
{}

// What a line says in words is the form of a call.
pub fn lines_formed()
    ensures { LinesFormed }
{}
