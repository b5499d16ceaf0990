//! Paths of a directory, as those of another.

use crate::names::bytes_of_word;
use std::alloc::{AllocError, Global};

/// A directory, and the one that replaces it in paths.
#[derive(Drop)]
pub struct PathMap {
    old: Vec<u8>,
    new: Vec<u8>,
}

impl PathMap {
    /// The map of two words.
    pub fn new(alloc: Global, map: (&str, &str)) -> Result<PathMap, AllocError> {
        Ok(PathMap {
            old: bytes_of_word(alloc, map.0)?,
            new: bytes_of_word(alloc, map.1)?,
        })
    }

    /// What a path counts as: it begins with the new directory instead of the old one.
    pub fn mapped(&self, alloc: Global, path: Vec<u8>) -> Result<Vec<u8>, AllocError> {
        match self.rest_of(&path) {
            Some(rest) => joined(alloc, &self.new, rest),
            None => Ok(path),
        }
    }

    /// What stands after the old directory in a path; None in a path elsewhere.
    fn rest_of<'p>(&self, path: &'p [u8]) -> Option<&'p [u8]> {
        let rest = path.strip_prefix(self.old.as_slice())?;
        let is_within = matches!(rest, [] | [b'/', ..]) || self.old.ends_with(b"/");
        is_within.then_some(rest)
    }
}

/// Bytes and others after them.
fn joined(alloc: Global, first: &[u8], second: &[u8]) -> Result<Vec<u8>, AllocError> {
    let mut bytes = Vec::from_slice(alloc, first)?;
    bytes.extend_from_slice(second)?;
    Ok(bytes)
}
