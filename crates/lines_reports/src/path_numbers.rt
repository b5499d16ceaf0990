//! The paths of files, each by a number.

use crate::report::Reading;
use gimli_core::{Reader, ReaderOffset};
use gimli_line::LineProgramHeader;
use lines_inputs::{Result, UnitRows};
use lines_words::PathMap;
use sha2::{Digest, Sha256};
use std::alloc::Global;
use std::collections::BTreeMap;

/// The path of all files that have none.
const NO_PATH: &[u8] = b"??";

/// Where a path was met first.
#[derive(Clone, Copy)]
pub(crate) struct Home {
    /// Whether in the second of two programs.
    pub(crate) is_new: bool,
    /// The offset of the unit.
    unit: u64,
    /// The index of the file; None where it has no path.
    file: Option<u64>,
}

/// The numbers of paths. A path isn't kept: it is known by its SHA-256, and made once more where it
/// is printed.
#[derive(Drop)]
pub(crate) struct PathNumbers<R: Reader> {
    alloc: Global,
    /// What paths count as.
    map: Option<PathMap>,
    /// The number of each path, by its SHA-256.
    numbers: BTreeMap<[u8; 32], usize>,
    /// Where each path was met first, by its number.
    homes: Vec<Home>,
    /// The numbers of the files of a unit, by their indices.
    of_unit: BTreeMap<u64, usize>,
    /// The unit in which a path was made once more, and its program.
    again: Option<(bool, UnitRows<R>)>,
}

impl<R: Reader> PathNumbers<R> {
    /// No path has a number. Paths count as a map says, where there is one.
    pub(crate) fn new(alloc: Global, map: Option<PathMap>) -> PathNumbers<R> {
        PathNumbers {
            alloc,
            map,
            numbers: BTreeMap::new(alloc),
            homes: Vec::new(alloc),
            of_unit: BTreeMap::new(alloc),
            again: None,
        }
    }

    /// Begins another unit.
    pub(crate) fn begin_unit(&mut self) {
        self.of_unit = BTreeMap::new(self.alloc);
    }

    /// The number of the path of a file of the unit, in the first or the second of two programs.
    /// Files without a path share one number. The bytes of the path count toward the budget.
    pub(crate) fn number_of(
        &mut self,
        header: &LineProgramHeader<R>,
        file: u64,
        is_new: bool,
        reading: &mut Reading<R>,
    ) -> Result<usize> {
        if let Some(number) = self.of_unit.get(&file).copied() {
            return Ok(number);
        }
        let (digest, home) = self.met(header, file, is_new, reading)?;
        let number = self.number_at(digest, home)?;
        self.of_unit.insert(file, number)?;
        Ok(number)
    }

    /// The number of the path with a digest, which is new where it wasn't met before.
    fn number_at(&mut self, digest: [u8; 32], home: Home) -> Result<usize> {
        if let Some(number) = self.numbers.get(&digest).copied() {
            return Ok(number);
        }
        let number = self.homes.len();
        self.homes.push(home)?;
        self.numbers.insert(digest, number)?;
        Ok(number)
    }

    /// Where the path of a number was met first; None past the last one.
    pub(crate) fn home(&self, number: usize) -> Option<Home> {
        self.homes.get(number).copied()
    }

    /// The path of a number, as `path_at` makes it once more.
    pub(crate) fn path_of(
        &mut self,
        number: usize,
        reading: &Reading<R>,
    ) -> Result<Option<Vec<u8>>> {
        match self.home(number) {
            Some(home) => self.path_at(home, reading),
            None => Ok(None),
        }
    }

    /// The path that was met first at a place, made once more. Where paths are asked for in the
    /// order of their numbers, each unit is read once.
    pub(crate) fn path_at(&mut self, home: Home, reading: &Reading<R>) -> Result<Option<Vec<u8>>> {
        match home.file {
            Some(file) => {
                self.turn_to(home, reading)?;
                self.path_again(file, reading)
            }
            None => {
                let path = Vec::from_slice(self.alloc, NO_PATH)?;
                Ok(Some(path))
            }
        }
    }

    /// The path of a file of the unit that was read last.
    fn path_again(&mut self, file: u64, reading: &Reading<R>) -> Result<Option<Vec<u8>>> {
        let path = match &mut self.again {
            Some((_, unit)) => path_in(unit, file, self.alloc, reading),
            None => Ok(None),
        };
        self.mapped(path?)
    }

    /// What a path counts as.
    fn mapped(&self, path: Option<Vec<u8>>) -> Result<Option<Vec<u8>>> {
        match (&self.map, path) {
            (Some(map), Some(path)) => Ok(Some(map.mapped(self.alloc, path)?)),
            (_, path) => Ok(path),
        }
    }

    /// The digest of the path of a file, and where it is met.
    fn met(
        &self,
        header: &LineProgramHeader<R>,
        file: u64,
        is_new: bool,
        reading: &mut Reading<R>,
    ) -> Result<([u8; 32], Home)> {
        let (path, _) = reading.path_of(header, file, false)?;
        let home = Home {
            is_new,
            unit: header.offset().0.into_u64(),
            file: path.is_some().then_some(file),
        };
        let path = self.mapped(path)?;
        Ok((Sha256::digest(path.as_deref().unwrap_or(NO_PATH)), home))
    }

    /// Reads the unit of a place once more, unless it is the one that was read last.
    fn turn_to(&mut self, home: Home, reading: &Reading<R>) -> Result<()> {
        if !self.is_at(home) {
            self.again = None;
            if let Some(unit) = UnitRows::at(self.alloc, &reading.input, home.unit)? {
                self.again = Some((home.is_new, unit));
            }
        }
        Ok(())
    }

    /// Whether the unit that was read last is that of a place.
    fn is_at(&self, home: Home) -> bool {
        match &self.again {
            Some((is_new, unit)) => *is_new == home.is_new && unit.offset == home.unit,
            None => false,
        }
    }
}

/// The path of a file of a unit that is read once more.
fn path_in<R: Reader>(
    unit: &mut UnitRows<R>,
    file: u64,
    alloc: Global,
    reading: &Reading<R>,
) -> Result<Option<Vec<u8>>> {
    unit.run_to_file(file)?;
    reading.sources.known_path(alloc, unit.header(), file)
}
