//! What filters are held against.

/// What each filter that was computed has to be.
#[derive(Clone, Copy, Debug)]
pub enum Standard {
    /// Right: it answers each path as possible that its commit touches.
    Right,
    /// The one that Git writes, to the last bit.
    Exact,
}
