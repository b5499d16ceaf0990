//! Whether whole paths need the directories that the units of `.debug_info` have.

ghost use Rattle.std.specs.Prelude.{◌≡◌, IfErr, IfOk, false};
ghost use Rattle.gimli_lookup.specs.Directories.{IsNeedOfSome};
ghost use Rattle.gimli_lookup.specs.PathFiles.{paths_of};
ghost use Rattle.gimli_lookup.specs.Paths.{needs_directory};
ghost use Rattle.gimli_lookup.specs.Strings.{strings};

use crate::paths::Paths;
use crate::string_sections::StringSections;
use gimli_core::{Error, Reader, Result};
use gimli_line::{IncompleteLineProgram, LineUnits};

/// Whether the paths of a program need the directory. Those of one that can't be read don't.
fn needs_directory<R: Reader>(
    program: Result<IncompleteLineProgram<R>>,
    sections: &StringSections<R>,
) -> bool
    ensures read { IfOk program (λ p. result
        ≡ needs_directory (paths_of (strings R.seen sections.now) p.meaning)) }
    ensures refused { IfErr program (λ e. result ≡ false) }
{
    match program {
        Ok(program) => Paths::new(program.header(), *sections, None).needs_directory(),
        Err(_) => false,
    }
}

/// Whether `Paths::needs_directory` holds for some of these units. A unit that can't be read needs
/// no directory. Stops at the first that does. Fails only with `OutOfMemory`.
pub fn some_need_directory<R: Reader>(
    mut units: LineUnits<R>,
    sections: &StringSections<R>,
) -> Result<bool>
    ensures ok { IfOk result (IsNeedOfSome units.section units.entry
        (strings R.seen sections.now) units.offsets) }
    ensures err { IfErr result (λ e. e ≡ Error.OutOfMemory) }
{
    'units: while let Some(unit) = units.next()? {
        if needs_directory(unit.program, sections) {
            return Ok(true);
        }
    }
    Ok(false)
}
