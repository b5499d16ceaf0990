//! Digests that tell paths apart: of their bytes, and of their components.
//!
//! A digest takes the place of a path as a key, so what is kept of a path isn't as long as it, and
//! the paths of a file can't be chosen so that their keys collide. What comes of the directory of a
//! compilation is kept for the files that follow in it.

use crate::components::begins_with_root;
use crate::written_path::{WrittenPath, append_piece, bytes_in, is_separator};
use gimli_core::{AttributeValue, Reader, ReaderOffset};
use gimli_line::FileEntry;
use lines_inputs::{PathBudget, Result};
use sha2::{Digest, Sha256};
use std::alloc::Global;

/// This many bytes that are compared count as one, since comparing takes less time than making
/// them.
const COMPARED: u64 = 32;

/// A SHA-256 digest.
pub(crate) type Sum = [u8; 32];

/// The digest of components, by that of those before the last one.
fn with_component(before: Sum, component: &[u8]) -> Sum {
    let mut hasher = Sha256::new();
    hasher.update(before.as_slice());
    hasher.update(component);
    hasher.finalize()
}

/// The digest of what a header says of the path of a file.
pub(crate) fn sum_of_entry<R: Reader>(file: &FileEntry<R>) -> Result<Sum> {
    let mut hasher = Sha256::new();
    hasher.update(file.directory_index().to_le_bytes().as_slice());
    add_name(file.path_name(), &mut hasher)?;
    Ok(hasher.finalize())
}

/// Adds to a digest what a header says of the name of a file.
fn add_name<R: Reader>(name: AttributeValue<R>, hasher: &mut Sha256) -> Result<()> {
    match name {
        AttributeValue::DebugLineStrRef(offset) => {
            hasher.update(b"l");
            hasher.update(offset.0.into_u64().to_le_bytes().as_slice());
        }
        AttributeValue::DebugStrRef(offset) => {
            hasher.update(b"s");
            hasher.update(offset.0.into_u64().to_le_bytes().as_slice());
        }
        AttributeValue::String(name) => {
            let name = bytes_in(&name)?;
            let bytes: &[u8] = &name;
            hasher.update(b"n");
            hasher.update(bytes);
        }
        _ => {}
    }
    Ok(())
}

/// Components of a path from its first one on, each by the digest of those up to it.
#[derive(Drop)]
struct Levels {
    sums: Vec<Sum>,
    /// How many of them nothing drops.
    fixed: usize,
    /// Whether the path begins at the root.
    is_whole: bool,
}

impl Levels {
    /// No components.
    fn new(alloc: Global) -> Levels {
        Levels {
            sums: Vec::new(alloc),
            fixed: 0,
            is_whole: false,
        }
    }
}

/// A path that goes on from levels, of which it may drop some.
#[derive(Drop)]
struct Way<'l> {
    before: &'l [Sum],
    own: &'l mut Levels,
}

impl Way<'_> {
    /// How many components there are.
    fn count(&self) -> usize {
        self.before.len().saturating_add(self.own.sums.len())
    }

    /// The digest of all components.
    fn sum(&self) -> Sum {
        match (self.own.sums.last(), self.before.last()) {
            (Some(sum), _) | (None, Some(sum)) => *sum,
            (None, None) => [0; 32],
        }
    }

    /// Goes down into a component.
    fn go_down(&mut self, component: &[u8]) -> Result<()> {
        let sum = with_component(self.sum(), component);
        self.own.sums.push(sum)?;
        Ok(())
    }

    /// Goes up from the last component, where `..` drops it.
    fn go_up(&mut self) -> Result<()> {
        if self.count() > self.own.fixed {
            if self.own.sums.pop().is_none() {
                if let Some((_, before)) = self.before.split_last() {
                    self.before = before;
                }
            }
            return Ok(());
        }
        if !self.own.is_whole {
            self.go_down(b"..")?;
            self.own.fixed = self.count();
        }
        Ok(())
    }

    /// Goes along a piece of the path, which begins at the root where it is its first one and
    /// begins with a separator.
    fn go_along(&mut self, piece: &[u8]) -> Result<()> {
        if self.count() == 0 && begins_with_root(piece) {
            self.go_down(b"")?;
            self.own.is_whole = true;
            self.own.fixed = 1;
        }
        for component in piece.split(|byte| is_separator(*byte)) {
            match component {
                [] | [b'.'] => {}
                [b'.', b'.'] => self.go_up()?,
                _ => self.go_down(component)?,
            }
        }
        Ok(())
    }

    /// Goes along the directory and the name of a path, and returns the digest of all components.
    fn go_along_path<R: Reader>(&mut self, path: &WrittenPath<R>) -> Result<Sum> {
        self.go_along(&bytes_in(&path.directory)?)?;
        self.go_along(&bytes_in(&path.name)?)?;
        Ok(self.sum())
    }
}

/// What makes digests of paths.
#[derive(Drop)]
pub(crate) struct PathDigests<R: Reader> {
    alloc: Global,
    /// The unit of the path before that is in a directory of a compilation.
    unit: Option<u64>,
    /// That directory.
    base: Option<R>,
    /// The digest of its bytes, with the separator that comes after them, which isn't ended.
    bytes: Sha256,
    /// Its components.
    levels: Levels,
}

impl<R: Reader> PathDigests<R> {
    /// No path was before.
    pub(crate) fn new(alloc: Global) -> PathDigests<R> {
        PathDigests {
            alloc,
            unit: None,
            base: None,
            bytes: Sha256::new(),
            levels: Levels::new(alloc),
        }
    }

    /// Whether the path before was in a directory with these bytes.
    fn is_in(&self, base: &R) -> Result<bool> {
        let Some(before) = &self.base else {
            return Ok(false);
        };
        if before.len().into_u64() != base.len().into_u64() {
            return Ok(false);
        }
        let (before, base) = (bytes_in(before)?, bytes_in(base)?);
        let (before, base): (&[u8], &[u8]) = (&before, &base);
        Ok(before == base)
    }

    /// Goes on to paths in the directory of a path of a unit, if it has one: that of all paths of
    /// the unit. A part of its bytes counts toward the budget, since they are compared.
    pub(crate) fn begin(
        &mut self,
        unit: u64,
        path: &WrittenPath<R>,
        budget: &mut PathBudget,
    ) -> Result<()> {
        let base = &path.base;
        if base.is_empty() || self.unit == Some(unit) {
            return Ok(());
        }
        self.unit = Some(unit);
        budget.count(base.len().into_u64() / COMPARED);
        if self.is_in(base)? {
            return Ok(());
        }
        self.base = None;
        self.begin_bytes(&bytes_in(base)?)?;
        self.base = Some(*base);
        Ok(())
    }

    /// Goes on to paths in a directory with these bytes.
    fn begin_bytes(&mut self, base: &[u8]) -> Result<()> {
        self.bytes = Sha256::new();
        self.bytes.update(base);
        match base.last() {
            Some(byte) if !is_separator(*byte) => self.bytes.update(b"/"),
            _ => {}
        }
        self.levels = Levels::new(self.alloc);
        let mut way = Way {
            before: &[],
            own: &mut self.levels,
        };
        way.go_along(base)
    }

    /// The digest of the bytes of a path in the directory that was begun last, or in none.
    pub(crate) fn of_bytes(&self, path: &WrittenPath<R>) -> Result<Sum> {
        let mut own = Vec::new(self.alloc);
        append_piece(&mut own, &path.directory)?;
        append_piece(&mut own, &path.name)?;
        self.with_bytes(&own, path.base.is_empty())
    }

    /// The digest of bytes in the directory that was begun last, or in none.
    fn with_bytes(&self, own: &[u8], is_in_none: bool) -> Result<Sum> {
        let mut hasher = if is_in_none {
            Sha256::new()
        } else {
            self.bytes.clone()?
        };
        hasher.update(own);
        Ok(hasher.finalize())
    }

    /// The digest of the components of a path in the directory that was begun last, or in none.
    pub(crate) fn of_components(&self, path: &WrittenPath<R>) -> Result<Sum> {
        let mut own = Levels::new(self.alloc);
        let mut before: &[Sum] = &[];
        if !path.base.is_empty() {
            before = &self.levels.sums;
            own.fixed = self.levels.fixed;
            own.is_whole = self.levels.is_whole;
        }
        let mut way = Way {
            before,
            own: &mut own,
        };
        way.go_along_path(path)
    }
}
