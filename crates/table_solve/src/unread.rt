//! The sectors of the volume table's segment that the tape may hold otherwise.

use qic_base::LostSet;

/// The sectors of the volume table's segment that a workspace may not have as the tape holds them.
#[derive(Clone, Copy)]
pub struct Unread {
    /// Those that can't be read.
    pub lost: LostSet,
    /// The one of data that can be read and was left out of account, where there is one.
    pub left_out: LostSet,
}
