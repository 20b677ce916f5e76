// The laws of the notation: each is the contract of a function that does nothing, so that the check asks for its proof.
ghost use Rattle.notation.specs.Laws.{NotesTokens};

// What is read of a text is the form of tokens.
pub fn notes_tokens()
    ensures { NotesTokens }
{}
