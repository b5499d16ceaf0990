//! The units of `.debug_info`, one after the other.

ghost use Rattle.std.specs.Prelude.{◌≡◌};
ghost use Rattle.gimli_core.specs.Layout.{layout_of};
ghost use Rattle.gimli_compilation.specs.Header.{frame_production};
ghost use Rattle.gimli_compilation.specs.inside.Unit.{after_frame};

use crate::header::split_unit;
use crate::refusal::Refusal;
use crate::sections::{Compilation, CompilationSections, Kept};
use gimli_core::{Error, Reader, ReaderOffset, Result};
use std::alloc::Global;
use std::marker::Model;

/// Skips the unit in front, or all bytes where they don't begin with a unit.
fn skip_unit<R: Reader>(input: &mut R)
    ensures { (R.seen input.new).bytes
        ≡ after_frame ((frame_production (layout_of (R.seen input.old).is_big R.Offset.limit)).read
        (R.seen input.old).bytes) }
{
    if split_unit(input).is_err() {
        input.empty();
    }
}

/// A unit of `.debug_info`.
#[derive(Clone, Copy, Debug)]
pub struct CompilationUnit<R> {
    /// The offset of the unit in the section.
    pub offset: u64,
    /// What its first entry says, or why it can't be read.
    pub compilation: std::result::Result<Compilation<R>, Refusal>,
}

/// The units of `.debug_info` that are still to come, in order.
#[derive(Drop)]
pub struct CompilationUnits<R: Reader> {
    sections: CompilationSections<R>,
    /// Where the next unit begins.
    offset: R::Offset,
    kept: Kept<R>,
}

impl<R: Reader> Model for CompilationUnits<R> {
    ghost use Rattle.std.specs.Prelude.{◌≡◌};
    ghost use Rattle.gimli_compilation.specs.Sections.{sections_of};
    ghost use Rattle.gimli_compilation.specs.Unit.{Walk};

    ghost Value = { Walk };

    ghost view = { λ a. record {
      sections = sections_of R.seen R.Offset.limit a.sections;
      offset = R.Offset.number a.offset;
    } };

    ghost use Rattle.gimli_compilation.specs.inside.AbbreviationTable.{AreTables};

    ghost invariant = { λ a. AreTables R.seen (R.seen a.sections.debug_abbrev).bytes a.kept.tables
        × (a.kept.strings ≡ (R.seen a.sections.debug_str).bytes)
        × (a.kept.line_strings ≡ (R.seen a.sections.debug_line_str).bytes) };
}

impl<R: Reader> CompilationSections<R> {
    ghost use Rattle.std.specs.Prelude.{◌≡◌};
    ghost use Rattle.gimli_compilation.specs.Sections.{sections_of};

    /// The units of `.debug_info`, from its start on.
    pub fn units(&self, alloc: Global) -> CompilationUnits<R>
        ensures sections { result.sections ≡ sections_of R.seen R.Offset.limit self.now }
        ensures offset { result.offset ≡ 0 }
    {
        CompilationUnits {
            sections: *self,
            offset: R::Offset::from_u8(0),
            kept: self.nothing_kept(alloc),
        }
    }
}

impl<R: Reader> CompilationUnits<R> {
    ghost use Rattle.std.specs.Prelude.{◌<◌, ◌≡◌, ◌≤◌, [], drop, length, IfErr, IfNone, IfOk};
    ghost use Rattle.std.specs.Prelude.{IfSome};
    ghost use Rattle.gimli_compilation.specs.Sections.{compilation_seen};
    ghost use Rattle.gimli_compilation.specs.Unit.{HasCompilationAt, HasRefusalAt, IsNextOffset};

    /// The next unit; None where no bytes are left. A unit that is refused is given with its
    /// refusal, and the next one begins after it; where its length can't be read or says more bytes
    /// than there are, it is the last one. Fails only with `OutOfMemory`; nothing is changed then,
    /// so that the call can be made again. It fails in the same way where tables of abbreviations
    /// overlap, or first entries have many attributes without a value: the walk reads at most four
    /// times the bytes of `.debug_abbrev`, and 16 bytes of specifications for each byte of
    /// `.debug_info`.
    pub fn next(&mut self) -> Result<Option<CompilationUnit<R>>>
        ensures end { IfOk result
            (λ next. IfNone next (drop self.old.offset self.old.sections.info ≡ [])) }
        ensures stays { IfOk result (λ next. IfNone next (self.new ≡ self.old)) }
        ensures sections { self.new.sections ≡ self.old.sections }
        ensures offset { IfOk result
            (λ next. IfSome next (λ unit. unit.offset ≡ self.old.offset)) }
        ensures next { IfOk result (λ next. IfSome next
            (λ unit. IsNextOffset self.old.sections self.old.offset self.new.offset)) }
        ensures onward { IfOk result
            (λ next. IfSome next (λ unit. self.old.offset < self.new.offset)) }
        ensures within { IfOk result
            (λ next. IfSome next (λ unit. self.new.offset ≤ length self.old.sections.info)) }
        ensures compilation { IfOk result (λ next. IfSome next (λ unit.
            IfOk unit.compilation (λ compilation. HasCompilationAt self.old.sections unit.offset
            (compilation_seen R.seen compilation)))) }
        ensures refusal { IfOk result (λ next. IfSome next (λ unit.
            IfErr unit.compilation (HasRefusalAt self.old.sections unit.offset))) }
        ensures err { IfErr result (λ e. (e ≡ Error.OutOfMemory) × (self.new ≡ self.old)) }
    {
        let offset = self.offset;
        let mut rest = self.sections.info_at(offset);
        if rest.is_empty() {
            return Ok(None);
        }
        let Ok(compilation) = self.sections.compilation(offset, &mut self.kept) else {
            return Err(Error::OutOfMemory);
        };
        skip_unit(&mut rest);
        self.offset = rest.offset_from(&self.sections.debug_info);
        Ok(Some(CompilationUnit {
            offset: offset.into_u64(),
            compilation,
        }))
    }
}
