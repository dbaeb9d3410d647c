//! What was written of a volume.

ghost use Rattle.std.specs.Prelude.{◌≡◌, ◌+◌, ◌^◌, ◌<◌};
ghost use Rattle.volume_input.specs.Next.{grown};

/// The bytes that a volume has, and the segments that it takes.
#[derive(Clone, Copy)]
pub struct Written {
    /// The number of bytes.
    pub bytes: u32,
    /// The first segment, counted from 0.
    pub start: u16,
    /// The last one.
    pub end: u16,
}

impl Written {
    /// With so many bytes more, in a further segment.
    pub(crate) fn with(self, segment: u32, read: u32) -> Written
        requires segment { segment < 2 ^ 16 }
        requires room { self.bytes + read < 2 ^ 32 }
        ensures { result ≡ grown self segment read }
    {
        let end = segment as u16;
        Written {
            bytes: self.bytes + read,
            start: if self.bytes == 0 { end } else { self.start },
            end,
        }
    }
}
