//! What a sequencer is doing.
ghost use Rattle.std.specs.Prelude.{◌≡◌};
ghost use Rattle.sequencer.specs.States.{thrown_in};

/// Whether a run is under way, and how many of its moves are thrown.
#[derive(Clone, Copy)]
pub(crate) enum State {
    Idle,
    Running { done: u64 },
}

impl State {
    /// How many moves of the run are thrown, if one is under way.
    pub(crate) fn thrown(self) -> Option<u64>
        ensures { result ≡ thrown_in self }
    {
        match self {
            State::Idle => None,
            State::Running { done } => Some(done),
        }
    }
}
