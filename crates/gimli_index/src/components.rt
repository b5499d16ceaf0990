//! The components of a path, the last one first.

ghost use Rattle.std.specs.Prelude.{◌+◌, ◌<◌, ◌^◌, length};

/// The components that are left of a path, the last one first: `/` and backslashes separate them;
/// an empty one and `.` are dropped; `..` drops the one before it, but nothing above the root, and
/// stays where there is none before it. The root is a component without bytes.
#[derive(Clone, Copy)]
pub(crate) struct Components<'p> {
    /// What is left of the text.
    pub(crate) text: &'p [u8],
    /// How many of the components before drop those that have been passed.
    pub(crate) ups: usize,
    /// Whether the path begins at the root, which hasn't been returned yet.
    pub(crate) root: bool,
    ghost few: { ups + length text.now < 2 ^ 64 },
}
