//! The sections that are read once rows are found, and only if the paths of these need them:
//! `.debug_info` is most of a file's debug information, and often compressed.

use crate::input::Input;
use crate::locate::PlaceRows;
use debug_files::{Missing, ProgramFile, UnitSections};
use gimli_core::EndianSlice;
use line_text::Slice;
use std::alloc::Global;
use std::cell::OnceCell;
use std::io::{Read, Seek};

/// The sections that the paths of found rows need besides the line programs and `.debug_line_str`.
/// Each is here once it has been read.
///
/// <!-- part of crates/lines/src/places.rt -->
/// ```rust
/// let late = LateSections::none();
/// self.locate_by_rows(&program, &late, file)
/// ```
#[derive(Drop)]
pub struct LateSections {
    /// The texts (`.debug_str`).
    strings: OnceCell<Vec<u8>>,
    /// Those that say where compilations ran.
    units: OnceCell<UnitSections>,
}

impl LateSections {
    /// None is read yet.
    pub fn none() -> LateSections {
        LateSections {
            strings: OnceCell::new(),
            units: OnceCell::new(),
        }
    }

    /// A program with the sections that the paths of rows need, which are read from the file of the
    /// rows: `.debug_str` if a table of files names strings there, and both `.debug_str` and the
    /// sections of units if a directory may be in `.debug_info`, as `PlaceRows::need_strings` and
    /// `need_units` say. Refused as `ProgramFile::strings` and `ProgramFile::units` are.
    pub fn read<'i, F: Read + Seek>(
        &'i self,
        alloc: Global,
        rows: &PlaceRows<'_, '_, Slice<'i>>,
        input: &Input<Slice<'i>>,
        file: &mut ProgramFile<F>,
    ) -> Result<Input<Slice<'i>>, Missing> {
        let order = input.notation.order;
        let mut strings: &'i [u8] = &[];
        if rows.need_strings() {
            strings = self.strings(alloc, file)?;
        }
        let late = input.with_strings(EndianSlice::new(strings, order));
        if !rows.need_units(&late) {
            return Ok(late);
        }
        let strings = self.strings(alloc, file)?;
        let units = self.units(alloc, file)?;
        let late = input.with_strings(EndianSlice::new(strings, order));
        Ok(late.with_units(
            EndianSlice::new(&units.info, order),
            EndianSlice::new(&units.abbreviations, order),
            EndianSlice::new(&units.string_offsets, order),
        ))
    }

    /// The texts, which are read if they weren't yet.
    fn strings<F: Read + Seek>(
        &self,
        alloc: Global,
        file: &mut ProgramFile<F>,
    ) -> Result<&[u8], Missing> {
        let strings = self.strings.get_or_try_init(|| file.strings(alloc))?;
        Ok(strings.as_slice())
    }

    /// The sections that say where compilations ran, which are read if they weren't yet.
    fn units<F: Read + Seek>(
        &self,
        alloc: Global,
        file: &mut ProgramFile<F>,
    ) -> Result<&UnitSections, Missing> {
        self.units.get_or_try_init(|| file.units(alloc))
    }
}
