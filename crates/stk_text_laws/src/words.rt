//! Laws of the words on the command line.
ghost use Rattle.stk_text_laws.specs.Words.{WordsAskForOne, GeneratingIsNoReading};

/// No words are legal in two ways: those that are legal ask for one set of options.
pub fn words_ask_for_one()
    ensures { WordsAskForOne }
{}

/// Words that ask for a generated text don't ask for reading: after them the source is as it was.
pub fn generating_is_no_reading()
    ensures { GeneratingIsNoReading }
{}
