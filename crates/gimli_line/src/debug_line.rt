//! The section `.debug_line`, from which line programs are read.

ghost use Rattle.std.specs.Prelude.{◌≡◌, ◌≢◌, IfErr, IfOk, IsTrue, drop, option_map};
ghost use Rattle.gimli_core.specs.Layout.{layout_of};
ghost use Rattle.gimli_core.specs.Numbers.{is_address_size};
ghost use Rattle.gimli_core.specs.declared.attribute_value.AttributeValue.TheVariants.{String};
ghost use Rattle.gimli_core.specs.declared.error.Error.TheVariants.{OutOfMemory};
ghost use Rattle.gimli_line.specs.header.Header.{unit_entry};
ghost use Rattle.gimli_line.specs.header.Orders.{HasOneOrder};
ghost use Rattle.gimli_line.specs.header.HeaderGrammar.{handed_value};
ghost use Rattle.gimli_line.specs.Units.{SpellsUnitAt, HasUnitFaultAt};
ghost use Rattle.gimli_line.specs.run.Unread.{unread_of};

use crate::header::program_header::LineProgramHeader;
use crate::run::program::IncompleteLineProgram;
use gimli_core::{
    DebugLineOffset, EndianSlice, Endianity, Reader, ReaderOffset, Result, Section, SectionId,
};
use std::alloc::Global;
use std::marker::Model;

/// The section `.debug_line`, which holds the line programs of units.
#[derive(Clone, Copy, Debug, Default)]
pub struct DebugLine<R> {
    debug_line_section: R,
}

impl<R> Model for DebugLine<R> {
    ghost Value = { R };

    ghost view = { λ a. a.debug_line_section };

    ghost inverse = { λ v. record { debug_line_section = v } };
}

impl<'i, E: Endianity> DebugLine<EndianSlice<'i, E>> {
    /// The section of these bytes, in this order.
    pub fn new(debug_line_section: &'i [u8], endian: E) -> Self
        ensures bytes { (⟦<EndianSlice<'i, E> as Reader>⟧.seen result).bytes
            ≡ debug_line_section.now }
        ensures order { (⟦<EndianSlice<'i, E> as Reader>⟧.seen result).is_big ≡ E.is_big endian }
    {
        Self::from(EndianSlice::new(debug_line_section, endian))
    }
}

impl<R: Reader> DebugLine<R> {
    /// The line program whose header begins at an offset. In version 5 the address size, the
    /// directory and the name that are handed in are ignored. An offset past the end leaves no
    /// bytes. The refusal is that of the first part of the header that fails, or `OutOfMemory`.
    /// Requires an address size of 1, 2, 4 or 8, whatever the version is.
    pub fn program(
        &self,
        alloc: Global,
        offset: DebugLineOffset<R::Offset>,
        address_size: u8,
        comp_dir: Option<R>,
        comp_name: Option<R>,
    ) -> Result<IncompleteLineProgram<R>>
        requires { IsTrue (is_address_size address_size) }
        ensures unit { IfOk result
            (SpellsUnitAt (unread_of R.seen R.Offset.limit self.now)
            (R.Offset.number offset.0) (unit_entry R.seen address_size comp_dir comp_name)) }
        ensures refusal { IfErr result (λ e. e ≢ OutOfMemory
            → HasUnitFaultAt (unread_of R.seen R.Offset.limit self.now)
            (R.Offset.number offset.0) (unit_entry R.seen address_size comp_dir comp_name) e) }
        ensures layout { IfOk result
            (λ program. program.layout ≡ layout_of (R.seen self.now).is_big R.Offset.limit) }
        ensures offset { IfOk result (λ program. program.offset ≡ offset) }
        ensures order { IfOk result (HasOneOrder R.seen) }
        ensures directory { IfOk result (λ program. program.comp_dir
            ≡ handed_value program.meaning.parameters.encoding comp_dir) }
        ensures name { IfOk result (λ program. option_map (λ file. file.path_name) program.comp_file
            ≡ handed_value program.meaning.parameters.encoding (option_map String comp_name)) }
    {
        let mut input = self.input_at(offset.0);
        let header = LineProgramHeader::parse(
            alloc,
            &mut input,
            offset,
            address_size,
            comp_dir,
            comp_name,
        )?;
        Ok(IncompleteLineProgram { header })
    }

    /// The bytes from an offset on; none where it is past the end.
    pub(crate) fn input_at(&self, offset: R::Offset) -> R
        ensures bytes { (R.seen result).bytes
            ≡ drop (R.Offset.number offset) (R.seen self.now).bytes }
        ensures order { (R.seen result).is_big ≡ (R.seen self.now).is_big }
    {
        let mut input = self.debug_line_section;
        if input.skip(offset).is_err() {
            input.empty();
        }
        input
    }
}

impl<T> DebugLine<T> {
    /// The section over what `borrow` makes of the contents of this one. Requires that `borrow` may
    /// be called on any contents.
    pub fn borrow<'a, F, R>(&'a self, mut borrow: F) -> DebugLine<R>
    where
        F: FnMut(&'a T) -> R + Drop,
        requires { F.IsAlwaysCallable borrow }
        ensures { (contents : _) × (after : F) × (contents.now ≡ self.now)
            × F.step borrow contents result after }
    {
        borrow(&self.debug_line_section).into()
    }
}

impl<R> Section<R> for DebugLine<R> {
    ghost use Rattle.std.specs.Prelude.{refl};
    ghost use Rattle.gimli_core.specs.declared.common.SectionId.TheVariants.{
      DebugLine as debug_line,
    };

    ghost section = { debug_line };

    ghost contents = { λ section. section };

    ghost holds_reader = { λ reader made is. is };

    fn id() -> SectionId {
        SectionId::DebugLine
    }

    fn reader(&self) -> &R {
        &self.debug_line_section
    }
}

impl<R> From<R> for DebugLine<R> {
    ghost use Rattle.std.specs.Prelude.{◌≡◌};

    ghost from_gives = { λ reader section. section ≡ reader };

    fn from(debug_line_section: R) -> Self {
        DebugLine { debug_line_section }
    }
}
