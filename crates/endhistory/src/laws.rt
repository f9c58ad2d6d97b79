//! What follows from the rule, for whoever relies on a history. No function
//! here does anything: each contract is a law.
ghost use Rattle.endhistory.specs.Laws.{StoresOverPassed, FillsOverPassed, SeenIsStored, StepsKeep};

/// Where a word is stored into a slot, every reader has passed each block that
/// the slot held before.
pub fn stores_over_passed_blocks()
    ensures { StoresOverPassed }
{}

/// While a block is being stored, every reader has passed each block that its
/// slot held before.
pub fn fills_over_passed_blocks()
    ensures { FillsOverPassed }
{}

/// The next block of a reader that has seen it published lies in its slot, whole.
pub fn seen_blocks_are_stored()
    ensures { SeenIsStored }
{}

/// Each kind of step, made where its needs are met, keeps the rule, whatever
/// the table is when its word changes.
pub fn each_step_keeps_the_rule()
    ensures { StepsKeep }
{}
