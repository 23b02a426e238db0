//! The sequencer: aims, steps, nudges and stops over any panel, and the law of whole runs.
#![tactic(auto)]

mod machine;
mod playing;
mod sequencer;

pub use playing::play;
pub use runs::Thrown;
pub use sequencer::Sequencer;
