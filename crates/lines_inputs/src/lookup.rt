//! The rows of all units of a section, for the commands that look among them.

ghost use Rattle.std.specs.Prelude.{◌≡◌, ℕ, All, IfOk, option_map};
ghost use Rattle.gimli_compilation.specs.Directories.{TellsDirectories, directory_for};
ghost use Rattle.gimli_compilation.specs.Sections.{sections_of};
ghost use Rattle.lines_inputs.specs.Lookups.{AreUnitsIn, IsReadFrom, Knows};

use crate::input::Input;
use debug_files::needs_strings;
use gimli_compilation::Compilations;
use gimli_core::{Reader, ReaderOffset};
use gimli_lookup::{
    CoveringRows, FoundRows, Program, ProgramPaths, SectionLookup, UnitLookup, find_in_section,
};
use lines_words::Output;
use std::alloc::{AllocError, Global};

/// Up to how many addresses are found in one run over the section, which keeps no other rows. With
/// sequences of three rows an index of all rows costs as much from a hundred on, and with longer
/// ones later.
const FEW: usize = 100;

/// Which rows cover an address.
#[derive(Drop)]
pub enum Covering<R: Reader> {
    /// The rows of all units, for any address.
    Kept(SectionLookup<R>),
    /// What was found at a few addresses, and at no others.
    Found {
        addresses: Vec<u64>,
        found: FoundRows<R>,
    },
}

impl<R: Reader> Covering<R> {
    /// The units of the section.
    pub fn units(&self) -> &[UnitLookup<R>] {
        match self {
            Covering::Kept(lookup) => lookup.units(),
            Covering::Found { found, .. } => &found.units,
        }
    }

    /// The rows that cover an address. Where a few addresses alone were looked for, None at any
    /// other.
    pub fn find(&self, address: u64) -> Option<CoveringRows> {
        match self {
            Covering::Kept(lookup) => lookup.find(address),
            Covering::Found { addresses, found } => {
                let index = addresses.iter().position(|asked| *asked == address)?;
                *found.rows.get(index)?
            }
        }
    }

    /// Whether the paths of what it finds may need `.debug_str`: of the units of found rows, or
    /// where rows are kept for any address, of each unit.
    pub fn need_strings(&self) -> bool {
        match self {
            Covering::Kept(lookup) => lookup.units().iter().any(|unit| unit_needs_strings(unit)),
            Covering::Found { found, .. } => found_need_strings(&found.units, &found.rows),
        }
    }

    /// Whether they may need the sections that say where compilations ran, as
    /// `ProgramPaths::unit_needs` says of the same units.
    pub fn need_compilations(&self, paths: &ProgramPaths<R>) -> bool {
        match self {
            Covering::Kept(lookup) => lookup.units().iter().any(|unit| paths.unit_needs(unit)),
            Covering::Found { found, .. } => found.need_compilations(paths),
        }
    }
}

/// Whether the paths of a unit need `.debug_str`. A refused unit has no paths.
fn unit_needs_strings<R: Reader>(unit: &UnitLookup<R>) -> bool {
    match unit.header() {
        Some(header) => needs_strings(header),
        None => false,
    }
}

/// Whether the paths of some of these rows, which were found in units, need `.debug_str`.
fn found_need_strings<R: Reader>(units: &[UnitLookup<R>], rows: &[Option<CoveringRows>]) -> bool {
    for found in rows {
        let unit = found.and_then(|rows| units.get(rows.unit));
        if unit.is_some_and(|unit| unit_needs_strings(unit)) {
            return true;
        }
    }
    false
}

/// Keeps the rows of all units, as `look_up` does.
pub fn look_up_any<R: Reader>(
    alloc: Global,
    input: &Input<R>,
    output: &mut Output<'_>,
) -> Result<Covering<R>, AllocError>
    ensures read { IfOk result (IsReadFrom R.seen R.Offset.limit input.now) }
    ensures any { IfOk result (λ covering. (a : ℕ) → Knows covering a) }
{
    let lookup = look_up(alloc, input, output)?;
    Ok(Covering::Kept(lookup))
}

/// Finds the rows that cover addresses: of a few in one run, of others by the rows of all units.
/// The fault of each unit is reported, as `look_up` does.
pub fn look_up_each<R: Reader>(
    alloc: Global,
    input: &Input<R>,
    addresses: Vec<u64>,
    output: &mut Output<'_>,
) -> Result<Covering<R>, AllocError>
    ensures read { IfOk result (IsReadFrom R.seen R.Offset.limit input.now) }
    ensures each { IfOk result (λ covering. All (Knows covering) addresses.items) }
{
    if addresses.len() > FEW {
        return look_up_any(alloc, input, output);
    }
    let (size, lowest) = (input.notation.address_size.bytes(), input.notation.lowest);
    match find_in_section(&input.lines, alloc, size, lowest, &addresses) {
        Ok(found) => {
            tell_faults(&found.units, output);
            Ok(Covering::Found { addresses, found })
        }
        Err(_) => Err(AllocError),
    }
}

/// Keeps the rows of all units. Reports the fault of each unit; the rows before the fault are kept
/// all the same.
fn look_up<R: Reader>(
    alloc: Global,
    input: &Input<R>,
    output: &mut Output<'_>,
) -> Result<SectionLookup<R>, AllocError>
    ensures { IfOk result (AreUnitsIn R.seen R.Offset.limit input.now) }
{
    let (size, lowest) = (input.notation.address_size.bytes(), input.notation.lowest);
    match SectionLookup::new(&input.lines, alloc, size, lowest) {
        Ok(lookup) => {
            tell_faults(lookup.units(), output);
            Ok(lookup)
        }
        Err(_) => Err(AllocError),
    }
}

/// Keeps the rows of all units, as `look_up` does, and what the whole paths of their files are made
/// of. Reads the first entry of each unit of `.debug_info` once.
pub fn program_of<R: Reader>(
    alloc: Global,
    input: &Input<R>,
    output: &mut Output<'_>,
) -> Result<Program<R>, AllocError>
    ensures units { IfOk result (λ program.
        AreUnitsIn R.seen R.Offset.limit input.now program.lookup) }
    ensures strings { IfOk result (λ program. program.paths.0 ≡ input.now.strings) }
    ensures directories { IfOk result (λ program.
        TellsDirectories (sections_of R.seen R.Offset.limit input.now.compilations)
        (λ line. option_map (λ r. (R.seen r).bytes) (directory_for program.paths.1 line))) }
{
    let (size, lowest) = (input.notation.address_size.bytes(), input.notation.lowest);
    let Ok(mut program) = Program::new(alloc, &input.lines, input.strings, size, lowest) else {
        return Err(AllocError);
    };
    tell_faults(program.lookup().units(), output);
    let Ok(compilations) = Compilations::new(alloc, &input.compilations) else {
        return Err(AllocError);
    };
    program.set_compilations(compilations);
    Ok(program)
}

/// Reports the fault of each unit.
fn tell_faults<R: Reader>(units: &[UnitLookup<R>], output: &mut Output<'_>) {
    for unit in units {
        let offset = unit.offset().0.into_u64();
        match (unit.header(), unit.fault()) {
            (_, None) => {}
            (None, Some(fault)) => output.tell_of_unit(offset, fault),
            (Some(_), Some(fault)) => {
                output.tell_of_unit(offset, format_args!("in its rows: {fault}"));
            }
        }
    }
}
