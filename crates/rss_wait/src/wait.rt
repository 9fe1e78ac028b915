// One that waits.

/// A transaction that waits for another one to end.
#[derive(Clone, Copy, Default, Drop)]
pub struct Wait {
    pub by: u32,
    pub holder: u32,
    /// Whether a transaction ended since its call was tried last, so that it is to be tried again.
    pub again: bool,
}
