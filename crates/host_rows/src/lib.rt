//! Worked calls of the drive, the host and its segments, as tests: each call once, and where the tape fails in it.
#![tactic(auto)]

#[cfg(test)]
mod cable;
#[cfg(test)]
mod drive;
#[cfg(test)]
mod modes;
#[cfg(test)]
mod output;
#[cfg(test)]
mod places;
#[cfg(test)]
mod sectors;
#[cfg(test)]
mod segments;
#[cfg(test)]
mod starts;
#[cfg(test)]
mod trains;
