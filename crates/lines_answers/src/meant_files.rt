//! The files that a path names in all units, by the path and the spelling of each.

use crate::path_digests::{PathDigests, Sum, sum_of_entry};
use crate::written_path::{WrittenPath, WrittenPaths};
use gimli_core::Reader;
use gimli_line::{FileEntry, LineProgramHeader};
use lines_inputs::{PathBudget, Result};
use std::alloc::Global;
use std::collections::BTreeMap;

/// A file that is meant.
#[derive(Clone, Copy)]
struct MeantFile {
    /// The index of its unit.
    unit: usize,
    /// Its index in the header of the unit.
    number: u64,
    /// Its group.
    group: usize,
}

/// A spelling of a path.
#[derive(Clone, Copy)]
struct Spelling {
    /// The number of the path.
    path: usize,
    /// The last unit that has it, and the group there.
    unit: usize,
    group: usize,
}

/// The files that are meant. Those of one spelling of a path in one unit are a group, which counts
/// as one file.
#[derive(Drop)]
pub(crate) struct MeantFiles<R: Reader> {
    alloc: Global,
    /// What paths are read from.
    pub(crate) written: WrittenPaths<R>,
    /// Each path by its first spelling, in the order in which they are found.
    pub(crate) paths: Vec<WrittenPath<R>>,
    /// In the order of their units and numbers.
    files: Vec<MeantFile>,
    /// The number of the path of each group.
    groups: Vec<usize>,
    digests: PathDigests<R>,
    /// The numbers of paths, by their components.
    numbers: BTreeMap<Sum, usize>,
    spellings: BTreeMap<Sum, Spelling>,
    /// The groups of a unit, by what its header says of a file.
    of_unit: BTreeMap<Sum, usize>,
    /// The bytes of paths that are read and aren't printed.
    pub(crate) budget: PathBudget,
    /// Whether each of the paths is printed.
    are_printed: bool,
}

impl<R: Reader> MeantFiles<R> {
    /// No file is meant.
    pub(crate) fn new(
        alloc: Global,
        written: WrittenPaths<R>,
        budget: PathBudget,
        are_printed: bool,
    ) -> MeantFiles<R> {
        MeantFiles {
            alloc,
            written,
            paths: Vec::new(alloc),
            files: Vec::new(alloc),
            groups: Vec::new(alloc),
            digests: PathDigests::new(alloc),
            numbers: BTreeMap::new(alloc),
            spellings: BTreeMap::new(alloc),
            of_unit: BTreeMap::new(alloc),
            budget,
            are_printed,
        }
    }

    /// Adds the files of a unit whose paths end with these components, after those of the units
    /// before, up to the one with which more bytes of paths were read than may be. One that has no
    /// path is skipped. Returns whether there is any.
    pub(crate) fn add_unit(
        &mut self,
        unit: usize,
        header: &LineProgramHeader<R>,
        end: &[&[u8]],
    ) -> Result<bool> {
        let before = self.files.len();
        self.of_unit = BTreeMap::new(self.alloc);
        for number in 0..=header.file_names().len() as u64 {
            if self.budget.is_spent() {
                break;
            }
            match (self.written.of_file(header, number)?, header.file(number)) {
                (Some(path), Some(file)) => self.add_file(unit, number, file, path, end)?,
                _ => {}
            }
        }
        Ok(self.files.len() > before)
    }

    /// Adds a file of a unit, if its path ends with these components.
    fn add_file(
        &mut self,
        unit: usize,
        number: u64,
        file: &FileEntry<R>,
        path: WrittenPath<R>,
        end: &[&[u8]],
    ) -> Result<()> {
        if path.ends_with(end, &mut self.budget)? {
            let group = self.group_of(unit, file, path)?;
            self.files.push(MeantFile {
                unit,
                number,
                group,
            })?;
        }
        Ok(())
    }

    /// The group of a file, by what its header says of it.
    fn group_of(
        &mut self,
        unit: usize,
        file: &FileEntry<R>,
        path: WrittenPath<R>,
    ) -> Result<usize> {
        let sum = sum_of_entry(file)?;
        if let Some(group) = self.of_unit.get(&sum).copied() {
            return Ok(group);
        }
        let length = path.own_length();
        let before = self.paths.len();
        let group = self.group_of_path(unit, path)?;
        if self.paths.len() == before || !self.are_printed {
            self.budget.count(length);
        }
        self.of_unit.insert(sum, group)?;
        Ok(group)
    }

    /// The group of a path in a unit.
    fn group_of_path(&mut self, unit: usize, path: WrittenPath<R>) -> Result<usize> {
        self.digests.begin(unit as u64, &path, &mut self.budget)?;
        let sum = self.digests.of_bytes(&path)?;
        let known = self.spellings.get(&sum).copied();
        match known {
            Some(spelling) if spelling.unit == unit => return Ok(spelling.group),
            _ => {}
        }
        let number = match known {
            Some(spelling) => spelling.path,
            None => self.number_of(path)?,
        };
        let group = self.groups.len();
        self.groups.push(number)?;
        let spelling = Spelling {
            path: number,
            unit,
            group,
        };
        self.spellings.insert(sum, spelling)?;
        Ok(group)
    }

    /// The number of a path, which is appended where it is new.
    fn number_of(&mut self, path: WrittenPath<R>) -> Result<usize> {
        let sum = self.digests.of_components(&path)?;
        if let Some(number) = self.numbers.get(&sum).copied() {
            return Ok(number);
        }
        let number = self.paths.len();
        self.paths.push(path)?;
        self.numbers.insert(sum, number)?;
        Ok(number)
    }

    /// The group of the file of an index in a unit, and the number of its path; None where it isn't
    /// meant.
    pub(crate) fn find(&self, unit: usize, number: u64) -> Option<(usize, usize)> {
        let index = self.files.partition_point(|file| file.unit < unit
            || (file.unit == unit && file.number < number));
        let file = self.files.get(index)?;
        if file.unit != unit || file.number != number {
            return None;
        }
        Some((file.group, *self.groups.get(file.group)?))
    }
}
