//! Scripts over a source, a sink or a tape that fails, and over inputs that end early or never. A made volume over such
//! a sink.

mod inputs;
mod making;
pub mod runs;
mod stops;
mod streams;
