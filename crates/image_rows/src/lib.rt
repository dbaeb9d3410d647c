//! Images on a disk in memory, as tests: what each call of a tape writes to the disk and where a sync stands, and what
//! is left of an image where a call of the disk fails.
#![tactic(auto)]

#[cfg(test)]
mod calls;
#[cfg(test)]
mod cells;
#[cfg(test)]
mod damaged;
#[cfg(test)]
mod files;
#[cfg(test)]
mod heads;
#[cfg(test)]
mod scratched;
#[cfg(test)]
mod sectors;
#[cfg(test)]
mod stops;
#[cfg(test)]
mod upgrades;
