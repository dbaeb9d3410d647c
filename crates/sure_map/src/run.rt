//! Runs of bytes that have one mark.

ghost use Rattle.std.specs.Prelude.{◌≡◌, ◌<◌, ◌+◌, ◌^◌};
ghost use Rattle.rescue_map.specs.Text.{block_text};
ghost use Rattle.dump_spec.specs.Output.{mark_byte};
ghost use Rattle.sure_map.specs.Runs.{block_of, goes_on, with_bytes};

use dump_spec::Mark;
use rescue_map::{Block, block_line};

/// A run of bytes with one mark.
#[derive(Clone, Copy, Drop)]
pub struct Run {
    /// The place of its first byte.
    pub start: u32,
    /// Its length in bytes; 0 where there is none yet.
    pub size: u32,
    /// Its mark as a map writes it.
    pub mark: u8,
}

/// A mark as a map writes it.
pub fn mark_byte(mark: Mark) -> u8
    ensures { result ≡ mark_byte mark }
{
    match mark {
        Mark::Sure => b'+',
        Mark::Unchecked => b'/',
        Mark::Filled => b'-',
    }
}

impl Run {
    /// Whether bytes with a mark go on with it.
    pub fn goes_on(&self, mark: u8) -> bool
        ensures { result ≡ goes_on self.now mark }
    {
        self.size == 0 || self.mark == mark
    }

    /// The last run, where bytes with a mark come behind this one.
    pub fn with_bytes(&self, mark: u8, count: u32) -> Run
        requires { self.now.start + self.now.size + count < 2 ^ 32 }
        ensures { result ≡ with_bytes self.now mark count }
    {
        if self.goes_on(mark) {
            Run {
                start: self.start,
                size: self.size + count,
                mark,
            }
        } else {
            Run {
                start: self.start + self.size,
                size: count,
                mark,
            }
        }
    }

    /// Its line in the map.
    pub fn line(&self) -> [u8; 26]
        ensures { result ≡ block_text (block_of self.now) }
    {
        block_line(Block {
            start: u64::from(self.start),
            size: u64::from(self.size),
            mark: self.mark,
        })
    }
}
