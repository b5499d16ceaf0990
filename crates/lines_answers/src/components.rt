//! The components of paths, compared from the last one on.
//!
//! `/` and backslashes separate them; an empty one and `.` are dropped; `..` drops the one before
//! it, but nothing above the root, and stays where there is none before it. The root is a component
//! without bytes.

use crate::written_path::is_separator;
use lines_inputs::Result;
use std::alloc::Global;

/// Whether a path begins at the root.
pub(crate) fn begins_with_root(path: &[u8]) -> bool {
    match path.first() {
        Some(byte) => is_separator(*byte),
        None => false,
    }
}

/// The components of a path in order.
pub(crate) fn components_of(alloc: Global, path: &[u8]) -> Result<Vec<&[u8]>> {
    let is_whole = begins_with_root(path);
    let mut components: Vec<&[u8]> = Vec::new(alloc);
    if is_whole {
        components.push(b"")?;
    }
    // How many of them nothing drops.
    let mut fixed = components.len();
    for component in path.split(|byte| is_separator(*byte)) {
        match component {
            [] | [b'.'] => {}
            [b'.', b'.'] if components.len() > fixed => {
                components.pop();
            }
            [b'.', b'.'] if is_whole => {}
            [b'.', b'.'] => {
                components.push(component)?;
                fixed = components.len();
            }
            _ => components.push(component)?,
        }
    }
    Ok(components)
}

/// What stands before a last component as it is written; None where the text has another one.
fn before_last<'t>(text: &'t [u8], component: &[u8]) -> Option<&'t [u8]> {
    match text.strip_suffix(component)? {
        [] => Some(&[]),
        [before @ .., byte] if is_separator(*byte) => Some(before),
        _ => None,
    }
}

/// What stands before the last component of a text.
fn without_last(text: &[u8]) -> &[u8] {
    let last = text.iter().rposition(|byte| is_separator(*byte));
    match last {
        Some(end) => text.get(..end).unwrap_or(&[]),
        None => &[],
    }
}

/// What is left of a path in three pieces, once its last components were passed.
#[derive(Clone, Copy)]
pub(crate) struct PathLeft<'p> {
    /// What is left of the piece that was begun.
    text: &'p [u8],
    /// The pieces before it: the one that it is relative to comes first.
    rest: [&'p [u8]; 2],
    /// How many components are dropped of those that are left.
    ups: u64,
    /// Whether the path begins at the root, which isn't passed yet.
    is_whole: bool,
    /// How many bytes were dropped.
    dropped: u64,
}

impl<'p> PathLeft<'p> {
    /// A whole path of pieces, each of which is relative to the one after it.
    pub(crate) fn new(pieces: [&'p [u8]; 3]) -> PathLeft<'p> {
        let [text, directory, base] = pieces;
        let mut first = base;
        if first.is_empty() {
            first = directory;
        }
        if first.is_empty() {
            first = text;
        }
        PathLeft {
            text,
            rest: [directory, base],
            ups: 0,
            is_whole: begins_with_root(first),
            dropped: 0,
        }
    }

    /// How many bytes were read and are no part of the components that were passed.
    pub(crate) fn dropped(&self) -> u64 {
        self.dropped
    }

    /// Goes on to the piece before; false where none has bytes.
    fn begin_piece(&mut self) -> bool {
        let [directory, base] = self.rest;
        self.text = directory;
        self.rest = [base, b""];
        !directory.is_empty() || !base.is_empty()
    }

    /// Passes what is dropped at the end of the piece that was begun; false where nothing is.
    fn drop_last(&mut self) -> bool {
        let length = self.text.len();
        if let Some(before) = before_last(self.text, b"") {
            self.text = before;
        } else if let Some(before) = before_last(self.text, b".") {
            self.text = before;
        } else if let Some(before) = before_last(self.text, b"..") {
            self.text = before;
            self.ups = self.ups.saturating_add(1);
        } else if self.ups > 0 {
            self.text = without_last(self.text);
            self.ups = self.ups.saturating_sub(1);
        } else {
            return false;
        }
        let dropped = length.saturating_sub(self.text.len());
        self.dropped = self.dropped.saturating_add(dropped as u64);
        true
    }

    /// Passes what is dropped up to the last component that isn't. False where none is left.
    fn drop_all(&mut self) -> bool {
        for _ in 0..u64::MAX {
            if self.text.is_empty() {
                if !self.begin_piece() {
                    return false;
                }
            } else if !self.drop_last() {
                return true;
            }
        }
        false
    }

    /// Passes the last component that is left, if it is this one. What is read is what is dropped
    /// after it, and as many bytes as this one has.
    fn passes(&mut self, component: &[u8]) -> bool {
        if self.drop_all() {
            if let Some(before) = before_last(self.text, component) {
                self.text = before;
                return true;
            }
            return false;
        }
        if self.is_whole {
            self.is_whole = false;
            self.ups = 0;
            return component.is_empty();
        }
        if self.ups == 0 {
            return false;
        }
        self.ups = self.ups.saturating_sub(1);
        component == b"..".as_slice()
    }

    /// Whether these are the last components that are left.
    pub(crate) fn ends_with(&mut self, components: &[&[u8]]) -> bool {
        for component in components.iter().rev() {
            if !self.passes(component) {
                return false;
            }
        }
        true
    }
}
