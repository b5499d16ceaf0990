//! The directories of compilations, by the offsets of their line programs.

ghost use Rattle.std.specs.Prelude.{◌≡◌, ℕ, IsOkUnless, IfOk, OnOk, option_map};
ghost use Rattle.std.specs.BTreeMap.{get};
ghost use Rattle.std.specs.Ordering.{nat_cmp};
ghost use Rattle.gimli_compilation.specs.Directories.{TellsDirectories, directory_for};
ghost use Rattle.gimli_compilation.specs.Directories.{directory_in, first_of};
ghost use Rattle.gimli_compilation.specs.inside.Unit.{given_by};
ghost use Rattle.gimli_compilation.specs.Sections.{sections_of};

use crate::abbreviation::keep_first;
use crate::sections::CompilationSections;
use crate::units::CompilationUnit;
use gimli_core::{Error, Reader, Result};
use std::alloc::Global;
use std::collections::BTreeMap;
use std::marker::Model;

/// The directories of the compilations of a program, by the offsets of their line programs in
/// `.debug_line`.
#[derive(Drop)]
pub struct Compilations<R: Reader> {
    directories: BTreeMap<u64, R>,
}

impl<R: Reader> Model for Compilations<R> {
    ghost use Rattle.std.specs.Prelude.{ℕ, List};

    ghost Value = { List (ℕ × R) };

    ghost view = { λ a. a.directories.entries };
}

impl<R: Reader> CompilationUnit<R> {
    /// The line program and the directory of a unit that has both.
    fn line_directory(&self) -> Option<(u64, R)>
        ensures { result ≡ given_by self.now.compilation }
    {
        match self.compilation {
            Ok(compilation) => match compilation.stmt_list {
                Some(line) => match compilation.comp_dir {
                    Some(directory) => Some((line, directory)),
                    None => None,
                },
                None => None,
            },
            Err(_) => None,
        }
    }
}

/// Keeps the directory of a unit, where its line program has none yet. Fails only with
/// `OutOfMemory`.
fn keep<R: Reader>(directories: &mut BTreeMap<u64, R>, given: Option<(u64, R)>) -> Result<()>
    ensures ok { OnOk result ((line : ℕ) → get nat_cmp directories.new line
        ≡ first_of (get nat_cmp directories.old line) (directory_in line given)) }
    ensures err { IsOkUnless result Error.OutOfMemory }
{
    match given {
        None => Ok(()),
        Some((line, directory)) => {
            keep_first(directories, line, directory).map_err(|_| Error::OutOfMemory)
        }
    }
}

impl<R: Reader> Compilations<R> {
    /// Reads the first entry of each unit. A unit that is refused gives no directory. Where several
    /// units have one line program, the directory is that of the first that has one. Fails only
    /// with `OutOfMemory`, as `CompilationUnits::next` does.
    pub fn new(alloc: Global, sections: &CompilationSections<R>) -> Result<Self>
        ensures ok { IfOk result (λ compilations.
            TellsDirectories (sections_of R.seen R.Offset.limit sections.now)
            (λ line. option_map (λ r. (R.seen r).bytes) (directory_for compilations line))) }
        ensures err { IsOkUnless result Error.OutOfMemory }
    {
        let mut directories = BTreeMap::new(alloc);
        let mut units = sections.units(alloc);
        while let Some(unit) = units.next()? {
            keep(&mut directories, unit.line_directory())?;
        }
        Ok(Compilations { directories })
    }

    /// The directory of the compilation whose line program begins at an offset of `.debug_line`. It
    /// is empty where the compilation gives an empty one, and None where there is no such
    /// compilation or where it gives none.
    pub fn directory_of(&self, line_offset: u64) -> Option<R>
        ensures { result ≡ directory_for self.now line_offset }
    {
        self.directories.get(&line_offset).copied()
    }
}
