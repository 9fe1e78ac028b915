// How far the saving of a map has come.

/// How far the saving of the current map and its pages has come.
#[derive(Clone, Copy, Debug, PartialEq, Eq)]
pub enum Stage {
    /// Pages may have been changed since the last save.
    Changing,
    /// They are written, the map to this area.
    Saved(u8),
    /// The root that is selected names that area.
    Switched,
}
