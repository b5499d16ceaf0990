//! Which bytes of code the lines of a program have, and how those of two programs differ.

ghost use Rattle.std.specs.Prelude.{◌≡◌, ◌≢◌, [], length, None, IfOk, OnErr, OnOk};
ghost use Rattle.std.specs.BTreeMap.{get, is_at};
ghost use Rattle.lines_reports.specs.Coverage.{bytes_at, change_at, place_order, AddsBytes};
ghost use Rattle.lines_reports.specs.inside.Changes.{IsPart, Keeps, with_change};

use std::alloc::{AllocError, Global};
use std::collections::BTreeMap;
use std::marker::Model;

/// A line of a file, by the number of its path.
#[derive(Clone, Copy, PartialEq, Eq, PartialOrd, Ord)]
pub struct LinePlace {
    /// The number of the path.
    pub path: usize,
    /// The line.
    pub line: u64,
}

/// How many bytes of code each place has.
#[derive(Drop)]
pub struct Coverage {
    bytes: BTreeMap<LinePlace, u64>,
}

impl Model for Coverage {
    ghost use Rattle.std.specs.Prelude.{List, ℕ};
    ghost use Rattle.lines_reports.specs.declared.coverage.LinePlace.{LinePlace};

    ghost Value = { List (LinePlace × ℕ) };

    ghost view = { λ a. a.bytes.entries };
}

/// How the code of a place differs in a new program from that in an old one.
#[derive(Clone, Copy)]
pub struct Change {
    /// How many bytes it has in the old program; None where it has no row there.
    pub old: Option<u64>,
    /// How many it has in the new one.
    pub new: Option<u64>,
}

impl Coverage {
    /// No code.
    pub fn new(alloc: Global) -> Coverage
        ensures { result ≡ [] }
    {
        Coverage {
            bytes: BTreeMap::new(alloc),
        }
    }

    /// How many places have code.
    pub fn count(&self) -> usize
        ensures { result ≡ length self.now }
    {
        self.bytes.len()
    }

    /// Adds so many bytes to those of a place.
    pub fn add(&mut self, place: LinePlace, bytes: u64) -> Result<(), AllocError>
        ensures ok { OnOk result (AddsBytes self.old self.new place bytes) }
        ensures err { OnErr result (self.new ≡ self.old) }
    {
        let before = self.bytes.get(&place).copied().unwrap_or(0);
        self.bytes.insert(place, before.saturating_add(bytes))?;
        Ok(())
    }

    /// How a new program differs from this one: each place that has other code there, in the order
    /// of places.
    pub fn differences(
        &self,
        alloc: Global,
        new: &Coverage,
    ) -> Result<BTreeMap<LinePlace, Change>, AllocError>
        ensures { IfOk result (λ changes. (place : LinePlace) → get place_order changes place
            ≡ change_at self.now new.now place) }
    {
        let mut changes = BTreeMap::new(alloc);
        self.add_changes(self, new, &mut changes)?;
        new.add_changes(self, new, &mut changes)?;
        Ok(changes)
    }

    /// Adds the changes of the places of this program, which is one of two.
    fn add_changes(
        &self,
        old: &Coverage,
        new: &Coverage,
        changes: &mut BTreeMap<LinePlace, Change>,
    ) -> Result<(), AllocError>
        requires { IsPart old.now new.now changes.old }
        ensures part { OnOk result (IsPart old.now new.now changes.new) }
        ensures kept { OnOk result (Keeps old.now new.now changes.old changes.new) }
        ensures added { OnOk result ((place : LinePlace) → bytes_at self.now place ≢ None
            → get place_order changes.new place ≡ change_at old.now new.now place) }
    {
        for place in self.bytes.keys() {
            old.keep_change(new, *place, changes)?;
        }
        Ok(())
    }

    /// Keeps how a place differs in a new program, where it does.
    fn keep_change(
        &self,
        new: &Coverage,
        place: LinePlace,
        changes: &mut BTreeMap<LinePlace, Change>,
    ) -> Result<(), AllocError>
        ensures { OnOk result ((other : LinePlace) → get place_order changes.new other
            ≡ with_change (change_at self.now new.now place) (is_at (place_order place) other)
            (get place_order changes.old other)) }
    {
        if let Some(change) = self.change_of(new, place) {
            changes.insert(place, change)?;
        }
        Ok(())
    }

    /// How a place differs in a new program, where it does.
    fn change_of(&self, new: &Coverage, place: LinePlace) -> Option<Change>
        ensures { result ≡ change_at self.now new.now place }
    {
        let old = self.bytes.get(&place).copied();
        let new = new.bytes.get(&place).copied();
        (old != new).then_some(Change { old, new })
    }
}
