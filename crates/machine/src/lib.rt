// The main promise about the machine, for the stage: each statement is the contract of a function that does nothing, so that the check asks for its proof.
#![tactic(auto)]

ghost use Rattle.meaning.specs.Promise.{Right, RefusalKeeps, EnoughMemory};
ghost use Rattle.wire.specs.Stage.{stage_tokens, stage_calls};
ghost use Rattle.machine.specs.Setter.{setter, NoBook};

// For every list of calls, each answer is that of the text as the calls left it, set from nothing.
pub fn right()
    ensures { Right stage_tokens stage_calls setter }
{}

// A call that is turned away leaves memory as it was.
pub fn refusal_keeps()
    ensures { RefusalKeeps stage_tokens stage_calls setter }
{}

// Memory stays as large as the limits ask for, and holds bytes and numbers of 64 bits.
pub fn enough_memory()
    ensures { EnoughMemory setter }
{}

// Where memory is no open book, every call is refused, and memory stays as it was.
pub fn no_book()
    ensures { NoBook }
{}
