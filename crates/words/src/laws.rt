// The laws of atoms and words: each is the contract of a function that does nothing, so that the check asks for its proof.
ghost use Rattle.words.specs.Laws.{ReadBack, GoodAreReadable, GoodAreRead};

// Atoms are read back from their numbers, and have as many as they are of a paragraph.
pub fn read_back()
    ensures { ReadBack }
{}

// Good tokens of letters, spaces and notes have plain atoms, and are read wherever there is room for them.
pub fn good_are_read()
    ensures readable { GoodAreReadable }
    ensures read { GoodAreRead }
{}
