//! The number table of a window.
ghost use Rattle.std.specs.Prelude.{◌^◌, ◌<◌, ◌≤◌};

/// Bit k of `marks` says that the number `anchor + k` is held; none is `width` or more above the anchor.
#[derive(Clone, Copy)]
pub struct NumberTable {
    pub(crate) anchor: u32,
    pub(crate) marks: u64,
    pub(crate) width: usize,
    ghost within: { (1 ≤ width) × (width ≤ 64) × (marks < 2 ^ width) },
}
