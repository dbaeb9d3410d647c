//! Appends over a source, a sink or a tape that fails, and which volumes they leave.

mod losses;
mod stops;
mod streams;
