//! Numbers that are drawn one after another.

ghost use Rattle.std.specs.Prelude.{◌≡◌, ◌<◌};
ghost use Rattle.pcm_soak.specs.Draws.{drawn_below};

// Where the draws are: each goes by the state that the last one left.
#[derive(Drop)]
pub(crate) struct Draws {
    pub(crate) state: u64,
}

impl Draws {
    // The next draw, taken modulo a bound.
    #[tactic(auto, unfolding(crate::specs::Draws::next_state, crate::specs::Draws::state_number))]
    pub(crate) fn below(&mut self, bound: u32) -> u32
        requires { 0 < bound }
        ensures value { result ≡ (drawn_below bound self.old.state).value }
        ensures state { self.new.state ≡ (drawn_below bound self.old.state).state }
        ensures small { result < bound }
    {
        self.state = self
            .state
            .wrapping_mul(6364136223846793005)
            .wrapping_add(1442695040888963407);
        (self.state >> 33) as u32 % bound
    }
}
