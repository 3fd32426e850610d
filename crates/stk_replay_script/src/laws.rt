// Laws of texts.
ghost use Rattle.stk_replay_script.specs.Laws.{InputsHaveOneReading, StartsHaveOneReading};

/// An input is one script and one source at most, and a text gives keys one number each at most. It computes nothing.
pub fn texts_have_one_reading()
    ensures inputs { InputsHaveOneReading }
    ensures starts { StartsHaveOneReading }
{}
