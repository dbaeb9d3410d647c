//! The bytes that one line of a script promises, as a source.

ghost use Rattle.std.specs.Prelude.{◌-◌};
ghost use Rattle.volume_script.specs.Limited.{limited_means, lends_itself, lends_on};

use qic_base::{Source, SourceFailed};

/// The next bytes of a source, at most `left`.
#[derive(Drop)]
pub struct Limited<'a, S> {
    pub source: &'a mut S,
    pub left: u32,
}

impl<'a, S: Source> Source for Limited<'a, S> {
    ghost means = { limited_means S.means };

    ghost keeps_itself = { lends_itself S.means S.keeps_itself };

    ghost keeps_on = { lends_on S.means S.keeps_on };

    fn read(&mut self, into: &mut [u8]) -> Result<usize, SourceFailed> {
        let count = into.len().min(self.left as usize);
        if count == 0 {
            return Ok(0);
        }
        match self.source.read(&mut into[..count]) {
            Ok(read) => {
                self.left -= read as u32;
                Ok(read)
            }
            Err(fault) => Err(fault),
        }
    }
}
