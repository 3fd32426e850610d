//! Why an input has no replay.

use stk_base::NoMemory;
use stk_replaying::Replay;

/// Why an input has no replay.
#[derive(Clone, Copy, Debug, PartialEq, Eq)]
pub enum Unreplayed {
    /// It names no execution.
    BadScript,
    /// The trace of the execution has more than 1,000,000 entries.
    TooLong,
    /// An allocation was refused.
    NoMemory,
}

impl From<NoMemory> for Unreplayed {
    ghost use Rattle.std.specs.Prelude.{◌≡◌};
    ghost use Rattle.stk_replay_input.specs.declared.unreplayed.Unreplayed.TheVariants as unreplayed;

    ghost from_gives = { λ _ e. e ≡ unreplayed.NoMemory };

    fn from(_: NoMemory) -> Self {
        Unreplayed::NoMemory
    }
}

impl From<Replay> for Unreplayed {
    ghost use Rattle.std.specs.Prelude.{◌≡◌};
    ghost use Rattle.stk_replay_input.specs.Causes.{unreplayed_of};

    ghost from_gives = { λ why e. e ≡ unreplayed_of why };

    fn from(why: Replay) -> Self {
        match why {
            Replay::TooLong => Unreplayed::TooLong,
            Replay::NoMemory => Unreplayed::NoMemory,
        }
    }
}
