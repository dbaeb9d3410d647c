//! The dialogue of a recorded cable: trains of step pulses and samples of the track-0 line, told in words. No call takes
//! memory.
#![tactic(auto)]

mod context;
mod fault;
pub mod laws;
mod level;
mod line;
mod run;
mod step;
mod teller;

pub use fault::TraceFault;
pub use run::tell_recording;
