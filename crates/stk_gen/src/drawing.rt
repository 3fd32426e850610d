//! Numbers that are drawn one after the other.

ghost use Rattle.std.specs.Prelude.{◌≡◌, ◌<◌};
ghost use Rattle.stk_gen.specs.Drawing.{next_state, drawn};

const MULTIPLIER: u64 = 6_364_136_223_846_793_005;

const INCREMENT: u64 = 1_442_695_040_888_963_407;

/// A linear congruential generator modulo 2 to the 64. Its draws go by the higher bits of its state.
#[derive(Clone, Copy, Debug)]
pub(crate) struct Draws {
    pub state: u64,
}

impl Draws {
    /// A number below a bound, by the state that this draw leaves.
    #[tactic(auto, using(crate::proofs::Sequence::one_step), unfolding(crate::specs::Drawing::next_state, crate::specs::Drawing::drawn))]
    pub(crate) fn below(&mut self, bound: u64) -> u64
        requires { 0 < bound }
        ensures state { self.new.state ≡ next_state self.old.state }
        ensures answer { result ≡ drawn bound self.new.state }
        ensures below { result < bound }
    {
        self.state = self.state.wrapping_mul(MULTIPLIER).wrapping_add(INCREMENT);
        (self.state >> 33) % bound
    }
}
