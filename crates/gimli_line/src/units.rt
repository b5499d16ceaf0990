//! The units of a section, one after the other.

ghost use Rattle.std.specs.Prelude.{◌≡◌, ◌↔◌, Err, IsTrue};
ghost use Rattle.gimli_core.specs.Layout.{layout_of};
ghost use Rattle.gimli_core.specs.Reading.{result_map};
ghost use Rattle.gimli_core.specs.Seen.{part_taken};
ghost use Rattle.gimli_line.specs.Units.{after_unit, any_unit};

use crate::debug_line::DebugLine;
use crate::run::program::IncompleteLineProgram;
use gimli_core::{DebugLineOffset, Error, Reader, ReaderOffset, Result, Section};
use std::alloc::Global;
use std::marker::Model;

/// Takes a unit: its length, and as many bytes as that says. Returns the latter.
#[tactic(auto, unfolding(crate::specs::Units::any_unit))]
fn split_unit<R: Reader>(input: &mut R) -> Result<R>
    ensures { (result_map R.seen result, R.seen input.new)
        ≡ part_taken (any_unit (layout_of (R.seen input.old).is_big R.Offset.limit))
        (R.seen input.old) }
{
    let (length, _format) = input.read_initial_length()?;
    input.split(length)
}

/// Skips the unit in front, or all bytes where they don't begin with a unit.
fn skip_unit<R: Reader>(input: &mut R)
    ensures { (R.seen input.new).bytes
        ≡ after_unit
        ((any_unit (layout_of (R.seen input.old).is_big R.Offset.limit)).read
        (R.seen input.old).bytes) }
{
    if split_unit(input).is_err() {
        input.empty();
    }
}

/// Whether memory was missing.
fn is_out_of_memory<T>(outcome: &Result<T>) -> bool
    ensures { IsTrue result ↔ (outcome.now ≡ Err Error.OutOfMemory) }
{
    match outcome {
        Ok(_) => false,
        Err(e) => match e {
            Error::OutOfMemory => true,
            _ => false,
        },
    }
}

/// A unit of a section `.debug_line`.
#[derive(Drop)]
#[derive_where(Debug; R, R::Offset)]
pub struct LineUnit<R: Reader> {
    /// The offset of the unit in the section.
    pub offset: DebugLineOffset<R::Offset>,
    /// The line program of the unit, or why it can't be read. Never refused by `OutOfMemory`.
    pub program: Result<IncompleteLineProgram<R>>,
}

/// The units of a section that are still to come, in order.
#[derive(Drop)]
#[derive_where(Debug; R, R::Offset)]
pub struct LineUnits<R: Reader> {
    section: DebugLine<R>,
    /// Where the next unit begins.
    offset: DebugLineOffset<R::Offset>,
    alloc: Global,
    address_size: u8,
}

impl<R: Reader> Model for LineUnits<R> {
    ghost use Rattle.std.specs.Prelude.{IsTrue, None, drop, length};
    ghost use Rattle.gimli_core.specs.Layout.{layout_of};
    ghost use Rattle.gimli_core.specs.Numbers.{is_address_size};
    ghost use Rattle.gimli_line.specs.header.Header.{unit_entry};
    ghost use Rattle.gimli_line.specs.run.Unread.{unread_of};
    ghost use Rattle.gimli_line.specs.Units.{offsets_at};
    ghost use Rattle.gimli_line.specs.Units.{UnitWalk};

    ghost Value = { UnitWalk };

    ghost view = { λ a. record {
      section = unread_of R.seen R.Offset.limit a.section;
      entry = unit_entry R.seen a.address_size None None;
      offsets =
          offsets_at (layout_of (R.seen a.section).is_big R.Offset.limit)
          (length (R.seen a.section).bytes)
          (drop (R.Offset.number a.offset.0) (R.seen a.section).bytes);
    } };

    ghost invariant = { λ a. IsTrue (is_address_size a.address_size) };
}

impl<R: Reader> DebugLine<R> {
    ghost use Rattle.std.specs.Prelude.{◌≡◌, IsTrue, None};
    ghost use Rattle.gimli_core.specs.Layout.{layout_of};
    ghost use Rattle.gimli_core.specs.Numbers.{is_address_size};
    ghost use Rattle.gimli_line.specs.header.Header.{unit_entry};
    ghost use Rattle.gimli_line.specs.run.Unread.{unread_of};
    ghost use Rattle.gimli_line.specs.Units.{AreUnits};

    /// The units of the section, from its start on. Each is read as `program` reads the one at its
    /// offset, with the handed address size and no directory or name. Requires an address size of
    /// 1, 2, 4 or 8.
    pub fn units(&self, alloc: Global, address_size: u8) -> LineUnits<R>
        requires { IsTrue (is_address_size address_size) }
        ensures section { result.section ≡ unread_of R.seen R.Offset.limit self.now }
        ensures entry { result.entry ≡ unit_entry R.seen address_size None None }
        ensures offsets { AreUnits (layout_of (R.seen self.now).is_big R.Offset.limit) 0
            (R.seen self.now).bytes result.offsets }
    {
        LineUnits {
            section: DebugLine::from(*self.reader()),
            offset: DebugLineOffset(R::Offset::from_u8(0)),
            alloc,
            address_size,
        }
    }
}

impl<R: Reader> LineUnits<R> {
    ghost use Rattle.std.specs.Prelude.{◌≡◌, ◌∷◌, [], IfErr, IfOk, IfSome, MatchOption};
    ghost use Rattle.gimli_line.specs.Units.{SpellsUnitAt, HasUnitFaultAt};
    ghost use Rattle.gimli_line.specs.header.Orders.{HasOneOrder};

    /// The next unit of the section; None where no bytes are left. A unit that `program` refuses is
    /// given with its refusal, and the next one begins after it; where its length can't be read or
    /// says more bytes than there are, it is the last one. Fails only with `OutOfMemory`; nothing
    /// is changed then, so that the call can be made again.
    pub fn next(&mut self) -> Result<Option<LineUnit<R>>>
        ensures next { IfOk result (λ next. MatchOption next
            ((self.old.offsets ≡ []) × (self.new.offsets ≡ []))
            (λ unit. self.old.offsets ≡ R.Offset.number unit.offset.0 ∷ self.new.offsets)) }
        ensures section { self.new.section ≡ self.old.section }
        ensures entry { self.new.entry ≡ self.old.entry }
        ensures unit { IfOk result (λ next. IfSome next (λ unit. IfOk unit.program
            (SpellsUnitAt self.old.section (R.Offset.number unit.offset.0) self.old.entry))) }
        ensures refusal { IfOk result (λ next. IfSome next (λ unit. IfErr unit.program
            (HasUnitFaultAt self.old.section (R.Offset.number unit.offset.0) self.old.entry))) }
        ensures layout { IfOk result (λ next. IfSome next (λ unit. IfOk unit.program
            (λ program. program.layout ≡ self.old.section.layout))) }
        ensures offset { IfOk result (λ next. IfSome next (λ unit. IfOk unit.program
            (λ program. program.offset ≡ unit.offset))) }
        ensures order { IfOk result (λ next. IfSome next (λ unit. IfOk unit.program
            (HasOneOrder R.seen))) }
        ensures err { IfErr result (λ e. (e ≡ Error.OutOfMemory) × (self.new ≡ self.old)) }
    {
        let offset = self.offset;
        let mut rest = self.section.input_at(offset.0);
        if rest.is_empty() {
            return Ok(None);
        }
        let program = self
            .section
            .program(self.alloc, offset, self.address_size, None, None);
        if is_out_of_memory(&program) {
            return Err(Error::OutOfMemory);
        }
        skip_unit(&mut rest);
        self.offset = DebugLineOffset(rest.offset_from(self.section.reader()));
        Ok(Some(LineUnit { offset, program }))
    }
}
