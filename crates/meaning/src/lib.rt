// The laws of the meaning: each is the contract of a function that does nothing, so that the check asks for its proof.
#![tactic(auto)]

ghost use Rattle.meaning.specs.Promise.{OneReading, BestOfAll, SticksOut, LettersKept, PageByPage, NumbersRight, AtRest, EachByItself, TurnedAway, OnlyAsked};
ghost use Rattle.meaning.specs.Sizes.{CountsRight};
ghost use Rattle.meaning.specs.Examples.{Examples};

// The form of a text is read in one way only.
pub fn one_reading()
    ensures { OneReading }
{}

// The lines of a paragraph are a way to break it, no way costs less, and of those that cost as much the earlier lines are the longest.
pub fn best_of_all()
    ensures { BestOfAll }
{}

// A line sticks out only if a word of it is wider than the lines are.
pub fn sticks_out()
    ensures { SticksOut }
{}

// Every letter of a paragraph is set once, in order.
pub fn letters_kept()
    ensures { LettersKept }
{}

// Pages have all lines in order, each with just the notes of its lines, and no more rows than a page has, unless it is one line with its notes.
pub fn page_by_page()
    ensures { PageByPage }
{}

// At rest, the page numbers put in are those of the pages that are made.
pub fn numbers_right()
    ensures { NumbersRight }
{}

// A text whose lines need no page numbers is at rest.
pub fn at_rest()
    ensures { AtRest }
{}

// Paragraphs are set each by itself.
pub fn each_by_itself()
    ensures { EachByItself }
{}

// A call that is turned away leaves all later answers as they are.
pub fn turned_away()
    ensures { TurnedAway }
{}

// Questions leave the text as it is.
pub fn only_asked()
    ensures { OnlyAsked }
{}

// Small texts have the pages that are written out for them, and filling line after line is not always best.
pub fn examples()
    ensures { Examples }
{}

// How much a paragraph would be is counted without writing it out, and whether that is past a limit by numbers that stop there.
pub fn counts_right()
    ensures { CountsRight }
{}
