//! Laws of the definitions.

ghost use Rattle.stk_scripts.specs.Laws.{WrittenSpells, LexedIsSpelled, SpelledIsLexed, PrintedIsRead, ReadIsPrinted};
ghost use Rattle.stk_scripts.specs.Store.{TablesAgree};

/// What is written spells the tokens that it is written from.
pub fn written_spells()
    ensures { WrittenSpells }
{}

/// What the pass over a text gives, the text spells.
pub fn lexed_is_spelled()
    ensures { LexedIsSpelled }
{}

/// The pass gives what a text spells: so a text spells at most one list of tokens.
pub fn spelled_is_lexed()
    ensures { SpelledIsLexed }
{}

/// What a term prints is read as this term.
pub fn printed_is_read()
    ensures { PrintedIsRead }
{}

/// What is read prints itself.
pub fn read_is_printed()
    ensures { ReadIsPrinted }
{}

/// The table of scripts gives what the store gives, also for counts of at least the width.
pub fn tables_agree()
    ensures { TablesAgree }
{}
