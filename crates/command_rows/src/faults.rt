//! `format`, `info` and `list` over a tape or a sink that fails.

mod formatting;
mod mounting;
mod sectors;
