//! The addresses of a line.

ghost use Rattle.std.specs.Prelude.{◌≤◌};

use crate::line_index::LineIndex;

/// The addresses for a breakpoint at a line, in ascending order, each once: an iterator.
///
/// <!-- part of crates/uses/src/line_index.rt -->
/// ```rust
/// let line = found.line();
/// for address in found {
///     writeln!(text, "line {line} begins at {address:#x}")?;
/// }
/// ```
#[derive(Clone, Copy, Debug)]
pub struct Addresses<'a, 'p> {
    pub(crate) index: LineIndex<'a>,
    pub(crate) path: &'p [u8],
    pub(crate) line: u64,
    /// The number of the next statement.
    pub(crate) next: usize,
    /// The number after the last statement of the line.
    pub(crate) end: usize,
    /// The address that was given last.
    pub(crate) last: Option<u64>,
    ghost within: { end ≤ index.statements },
}
