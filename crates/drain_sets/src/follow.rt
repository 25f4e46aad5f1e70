//! Which stage of making products has begun, for those who wait for them.

/// A stage of making products. They come in this order.
#[derive(Clone, Copy, PartialEq, Eq, Debug)]
pub enum Stage {
    /// The filled elevation, by a flood.
    Surface,
    Directions,
    /// The accumulation.
    Counts,
    /// The basin labels.
    Labels,
}

/// Follows how products are made. What is made doesn't depend on it.
pub trait Follow {
    /// A stage begins.
    fn begin(&mut self, stage: Stage);
}

/// Follows nothing.
#[derive(Clone, Copy)]
pub struct Unfollowed;

impl Follow for Unfollowed {
    fn begin(&mut self, _stage: Stage) {}
}
