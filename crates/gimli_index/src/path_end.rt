//! The end of paths, made once and tested against many files.

ghost use Rattle.std.specs.Prelude.{◌≡◌, List, ℕ, ◌++◌, true, false};
ghost use Rattle.std.specs.List.{starts_with};
ghost use Rattle.std.specs.Str.{bytes_eq};
ghost use Rattle.gimli_lookup.specs.Components.{components};
ghost use Rattle.gimli_index.specs.inside.Components.{EndsAsWritten, IsLastComponent};

use crate::components::Components;
use crate::path_ends::{ends_with, is_separator};
use std::marker::Model;

/// The end of paths, by which files are named: `stl_map.h`, `bits/stl_map.h`, or a whole path from
/// the root. `/` and backslashes separate components, and `.`, `..` and doubled separators are
/// resolved by text.
///
/// Make it once and test many files with it: for most files that it doesn't name, the last bytes
/// decide.
#[derive(Clone, Debug, Drop)]
pub struct PathEnd<'p> {
    path: &'p [u8],
    /// The last component; None where there is none.
    name: Option<&'p [u8]>,
}

impl<'p> Model for PathEnd<'p> {
    ghost use Rattle.std.specs.Prelude.{List, ℕ, IfSome};
    ghost use Rattle.gimli_index.specs.inside.Components.{IsLastComponent};

    ghost Value = { List ℕ };

    ghost view = { λ a. a.path.now };

    ghost invariant = { λ a. IfSome a.name (λ name. IsLastComponent a.path.now name.now) };
}

/// Whether the last byte of a path is neither a separator nor `.`: then the path ends with its last
/// component as it is written.
#[inline(always)]
fn ends_as_written(path: &[u8]) -> bool
    ensures { result ≡ true → EndsAsWritten path.now }
{
    if path.is_empty() {
        return false;
    }
    let last = path[path.len() - 1];
    if is_separator(last) {
        return false;
    }
    if last == b'.' {
        return false;
    }
    true
}

/// Whether a path ends with these bytes.
#[inline(always)]
fn ends_with_bytes(path: &[u8], end: &[u8]) -> bool
    ensures { (front : List ℕ) → path.now ≡ front ++ end.now → result ≡ true }
{
    if path.len() < end.len() {
        return false;
    }
    let last = &path[path.len() - end.len()..];
    last == end
}

/// Whether the last bytes of a path show that its last component isn't this one.
#[inline(always)]
fn has_other_name(path: &[u8], name: &[u8]) -> bool
    ensures { result ≡ true → (end : List ℕ) → IsLastComponent end name.now
        → starts_with bytes_eq (components path.now) (components end) ≡ false }
{
    if ends_with_bytes(path, name) {
        return false;
    }
    ends_as_written(path)
}

impl<'p> PathEnd<'p> {
    /// The end that these bytes are.
    pub fn new(path: &'p [u8]) -> PathEnd<'p>
        ensures { result ≡ path.now }
    {
        let mut components = Components::new(path);
        let name = components.next_component();
        PathEnd { path, name }
    }

    /// Whether the last components of a path are all those of this end.
    #[inline(always)]
    pub fn is_end_of(&self, path: &[u8]) -> bool
        ensures { result ≡ starts_with bytes_eq (components path.now) (components self.now) }
    {
        if let Some(name) = self.name {
            if has_other_name(path, name) {
                return false;
            }
        }
        ends_with(path, self.path)
    }
}
