//! Declarations of `.debug_abbrev` (DWARF 5, section 7.5.3).

ghost use Rattle.std.specs.Prelude.{◌≡◌, ◌≢◌, ℕ, IfOk, IfSome, OnErr, OnOk, Some, option_map};
ghost use Rattle.std.specs.BTreeMap.{get};
ghost use Rattle.std.specs.Ordering.{nat_cmp};
ghost use Rattle.gimli_core.specs.Reading.{result_map};
ghost use Rattle.gimli_compilation.specs.Directories.{directory_in, first_of};
ghost use Rattle.gimli_compilation.specs.Abbreviation.{abbreviation_production};
ghost use Rattle.gimli_compilation.specs.Abbreviation.{constant_production, declaration_production};
ghost use Rattle.gimli_compilation.specs.Abbreviation.{declared_production};
ghost use Rattle.gimli_compilation.specs.Abbreviation.{specification_production};
ghost use Rattle.gimli_compilation.specs.inside.AbbreviationReading.{IsListed, listed};
ghost use Rattle.gimli_compilation.specs.inside.AbbreviationReading.{specifications_passed};
ghost use Rattle.gimli_compilation.specs.inside.Seen.{declaration_seen};

use crate::constants::{self, DwAt};
use gimli_core::{DwForm, Reader, ReaderOffset, Result};
use std::alloc::{AllocError, Global};
use std::collections::BTreeMap;
use std::mem;

/// The result of a call that fails only where memory is missing.
pub(crate) type MemoryResult<T> = std::result::Result<T, AllocError>;

/// The name and the form of an attribute.
#[derive(Clone, Copy)]
pub(crate) struct Specification {
    pub name: DwAt,
    pub form: DwForm,
}

impl Specification {
    ghost use Rattle.gimli_compilation.specs.Abbreviation.{is_end};

    /// Whether it is the pair of zeros that ends a declaration.
    pub(crate) fn is_end(self) -> bool
        ensures { result ≡ is_end self }
    {
        self.name.0 == 0 && self.form.0 == 0
    }
}

/// Takes the number that a declaration holds for `DW_FORM_implicit_const`, and nothing for any
/// other form.
fn pass_constant<R: Reader>(input: &mut R, form: DwForm) -> Result<()>
    ensures read { (result_map (λ _. tt) result, (R.seen input.new).bytes)
        ≡ (constant_production form.0).read (R.seen input.old).bytes }
{
    if form == constants::DW_FORM_implicit_const {
        input.read_sleb128()?;
    }
    Ok(())
}

/// Takes the specification of an attribute, with the number that `DW_FORM_implicit_const` has.
#[tactic(auto, unfolding(crate::specs::Abbreviation::specification_production))]
pub(crate) fn parse_specification<R: Reader>(input: &mut R) -> Result<Specification>
    ensures read { (result, (R.seen input.new).bytes)
        ≡ specification_production.read (R.seen input.old).bytes }
{
    let name = DwAt(input.read_uleb128_u16()?);
    let form = DwForm(input.read_uleb128_u16()?);
    pass_constant(input, form)?;
    Ok(Specification { name, form })
}

/// Takes the specifications of a declaration, up to the pair of zeros that ends them.
fn pass_specifications<R: Reader>(input: &mut R) -> Result<()>
    ensures read { (result_map (λ _. tt) result, (R.seen input.new).bytes)
        ≡ specifications_passed (R.seen input.old).bytes }
{
    loop {
        let specification = parse_specification(input)?;
        if specification.is_end() {
            return Ok(());
        }
    }
}

/// Takes a declaration whose code was taken already. Returns a reader that begins at its
/// specifications.
#[tactic(auto, unfolding(crate::specs::Abbreviation::declared_production))]
fn parse_declaration<R: Reader>(input: &mut R) -> Result<R>
    ensures read { (
      result_map (λ found. listed (R.seen found).bytes) result,
      (R.seen input.new).bytes,
    )
        ≡ declared_production.read (R.seen input.old).bytes }
    ensures listed { IfOk result (λ found. IsListed (R.seen found).bytes) }
{
    input.read_uleb128()?;
    input.read_u8()?;
    let specifications = *input;
    pass_specifications(input)?;
    Ok(specifications)
}

/// Takes a declaration: its code, and a reader that begins at its specifications. None where the
/// table ends.
#[tactic(auto, unfolding(crate::specs::Abbreviation::declaration_production))]
fn next_declaration<R: Reader>(input: &mut R) -> Result<Option<(u64, R)>>
    ensures read { (result_map (declaration_seen R.seen) result, (R.seen input.new).bytes)
        ≡ declaration_production.read (R.seen input.old).bytes }
    ensures declared { IfOk result
        (λ found. IfSome found (λ pair. (pair.0 ≢ 0) × IsListed (R.seen pair.1).bytes)) }
{
    let code = input.read_uleb128()?;
    if code == 0 {
        return Ok(None);
    }
    let specifications = parse_declaration(input)?;
    Ok(Some((code, specifications)))
}

/// Finds the declaration of a code in a table. Returns a reader that begins at its specifications,
/// or None where the table has no such declaration.
fn find_abbreviation<R: Reader>(input: &mut R, code: u64) -> Result<Option<R>>
    ensures read { (
      result_map (option_map (λ part. listed (R.seen part).bytes)) result,
      (R.seen input.new).bytes,
    )
        ≡ (abbreviation_production code).read (R.seen input.old).bytes }
    ensures listed { IfOk result (λ found. IfSome found (λ part. IsListed (R.seen part).bytes)) }
{
    loop {
        match next_declaration(input)? {
            None => return Ok(None),
            Some(found) => {
                if found.0 == code {
                    return Ok(Some(found.1));
                }
            }
        }
    }
}

/// Keeps a value where its key has none yet. Nothing is changed where it fails.
pub(crate) fn keep_first<R: Reader>(
    map: &mut BTreeMap<u64, R>,
    key: u64,
    value: R,
) -> MemoryResult<()>
    ensures ok { OnOk result ((k : ℕ) → get nat_cmp map.new k
        ≡ first_of (get nat_cmp map.old k) (directory_in k (Some (key, value)))) }
    ensures err { OnErr result (map.new.entries ≡ map.old.entries) }
{
    map.entry(key)?.or_insert(value);
    Ok(())
}

/// A table of declarations, as far as it was read.
#[derive(Drop)]
pub(crate) struct Abbreviations<R> {
    /// Where it begins in `.debug_abbrev`.
    offset: u64,
    /// Whether a code was looked up. Only then are declarations kept, since keeping one takes as
    /// long as reading thirty.
    is_asked: bool,
    /// Where the specifications of each code begin, in the first declaration that has it.
    specifications: BTreeMap<u64, R>,
    /// Where the next declaration begins; None where the table ended, and the refusal where it
    /// can't be read on.
    next: Result<Option<R>>,
}

/// Subtracts the bytes that were read from the number that may still be read. Fails where that is
/// too small, and leaves 0.
pub(crate) fn charge(room: &mut u64, bytes: u64) -> MemoryResult<()> {
    match room.checked_sub(bytes) {
        Some(left) => {
            *room = left;
            Ok(())
        }
        None => {
            *room = 0;
            Err(AllocError)
        }
    }
}

impl<R: Reader> Abbreviations<R> {
    ghost use Rattle.std.specs.BTreeMap.{get};
    ghost use Rattle.std.specs.Ordering.{nat_cmp};
    ghost use Rattle.std.specs.Prelude.{◌<◌, ◌≡◌, List, ℕ, IfOk, IfSome, OnOk, option_map};
    ghost use Rattle.gimli_core.specs.Reading.{result_map};
    ghost use Rattle.gimli_compilation.specs.inside.AbbreviationReading.{IsListed, listed};
    ghost use Rattle.gimli_compilation.specs.inside.AbbreviationTable.{IsTable, answer_to};
    ghost use Rattle.gimli_compilation.specs.inside.AbbreviationTable.{size_left};
    ghost use Rattle.gimli_compilation.specs.Unit.{table_production};

    /// The table at an offset of a section, of which nothing was read.
    fn new(alloc: Global, section: &R, offset: R::Offset) -> Self
        ensures table { IsTable R.seen (R.seen section.now).bytes result }
        ensures offset { result.offset ≡ R.Offset.number offset }
    {
        let mut input = *section;
        Abbreviations {
            offset: offset.into_u64(),
            is_asked: false,
            specifications: BTreeMap::new(alloc),
            next: match input.split(offset) {
                Ok(_) => Ok(Some(input)),
                Err(error) => Err(error),
            },
        }
    }

    /// Reads one more declaration, which begins where reading goes on. Returns its bytes.
    fn read_on(&mut self, mut input: R) -> MemoryResult<u64>
        requires { self.old.next ≡ Ok (Some input) }
        ensures table { (section : List ℕ) → IsTable R.seen section self.old
            → IsTable R.seen section self.new }
        ensures offset { self.new.offset ≡ self.old.offset }
        ensures smaller { OnOk result
            (size_left R.seen self.new.next < size_left R.seen self.old.next) }
    {
        let before = input.len().into_u64();
        self.next = match next_declaration(&mut input) {
            Ok(Some((code, specifications))) => {
                keep_first(&mut self.specifications, code, specifications)?;
                Ok(Some(input))
            }
            Ok(None) => Ok(None),
            Err(refusal) => Err(refusal),
        };
        Ok(before.saturating_sub(input.len().into_u64()))
    }

    /// Reads on up to the declaration of a code, or to the end of the table. Fails where no memory
    /// is left, or where more bytes would be read than may be.
    fn read_up_to(&mut self, code: u64, room: &mut u64) -> MemoryResult<()>
        ensures table { (section : List ℕ) → IsTable R.seen section self.old
            → IsTable R.seen section self.new }
        ensures offset { self.new.offset ≡ self.old.offset }
    {
        while let Ok(Some(input)) = self.next {
            if self.specifications.contains_key(&code) {
                return Ok(());
            }
            let bytes = self.read_on(input)?;
            charge(room, bytes)?;
        }
        Ok(())
    }

    /// Finds the declaration of a code among those that are kept, else by reading on. Also returns
    /// how many bytes it read.
    fn answer(&self, code: u64) -> (Result<Option<R>>, u64)
        ensures found { result_map (option_map (λ part. listed (R.seen part).bytes)) result.0
            ≡ answer_to R.seen code (get nat_cmp self.now.specifications code) self.now.next }
        ensures listed { (section : List ℕ) → IsTable R.seen section self.now
            → IfOk result.0 (λ found. IfSome found (λ part. IsListed (R.seen part).bytes)) }
    {
        if let Some(specifications) = self.specifications.get(&code) {
            return (Ok(Some(*specifications)), 0);
        }
        match self.next {
            Ok(Some(mut input)) => {
                let before = input.len().into_u64();
                let found = find_abbreviation(&mut input, code);
                (found, before.saturating_sub(input.len().into_u64()))
            }
            answer => (answer, 0),
        }
    }

    /// Finds the declaration of a code. What was read for it is kept from the second call on.
    fn find(&mut self, code: u64, room: &mut u64) -> MemoryResult<Result<Option<R>>>
        ensures table { (section : List ℕ) → IsTable R.seen section self.old
            → IsTable R.seen section self.new }
        ensures offset { self.new.offset ≡ self.old.offset }
        ensures found { IfOk result (λ found. (section : List ℕ)
            → IsTable R.seen section self.old
            → result_map (option_map (λ part. listed (R.seen part).bytes)) found
            ≡ ((table_production self.old.offset code).read section).0) }
        ensures listed { IfOk result (λ found. (section : List ℕ)
            → IsTable R.seen section self.old
            → IfOk found (λ found. IfSome found (λ part. IsListed (R.seen part).bytes))) }
    {
        if self.is_asked {
            self.read_up_to(code, room)?;
        } else {
            self.is_asked = true;
        }
        let (found, bytes) = self.answer(code);
        charge(room, bytes)?;
        Ok(found)
    }
}

/// How many times the bytes of `.debug_abbrev` may be read. Tables that don't overlap have no more
/// than these bytes together, and no declaration of a table is read more than twice.
const TIMES_READ: u64 = 4;

/// The tables of declarations of a section, as far as they were read.
#[derive(Drop)]
pub(crate) struct Tables<R> {
    alloc: Global,
    /// The table that was searched last.
    last: Abbreviations<R>,
    /// Those that were searched before, by where they begin.
    others: BTreeMap<u64, Abbreviations<R>>,
    /// How many more bytes may be read.
    room: u64,
}

impl<R: Reader> Tables<R> {
    ghost use Rattle.std.specs.Prelude.{◌≡◌, IfOk, IfSome, OnOk, option_map};
    ghost use Rattle.gimli_core.specs.Reading.{result_map};
    ghost use Rattle.gimli_compilation.specs.inside.AbbreviationReading.{IsListed, listed};
    ghost use Rattle.gimli_compilation.specs.inside.AbbreviationTable.{AreTables};
    ghost use Rattle.gimli_compilation.specs.Unit.{table_production};

    /// The tables of a section, of which nothing was read.
    pub(crate) fn new(alloc: Global, section: &R) -> Self
        ensures { AreTables R.seen (R.seen section.now).bytes result }
    {
        Tables {
            alloc,
            last: Abbreviations::new(alloc, section, R::Offset::from_u8(0)),
            others: BTreeMap::new(alloc),
            room: section.len().into_u64().saturating_mul(TIMES_READ),
        }
    }

    /// Makes the table at an offset the one that is searched.
    fn turn_to(&mut self, section: &R, offset: R::Offset) -> MemoryResult<()>
        requires { AreTables R.seen (R.seen section.now).bytes self.old }
        ensures tables { AreTables R.seen (R.seen section.now).bytes self.new }
        ensures offset { OnOk result (self.new.last.offset ≡ R.Offset.number offset) }
    {
        let place = offset.into_u64();
        if place == self.last.offset {
            return Ok(());
        }
        let table = match self.others.remove(&place) {
            Some(table) => table,
            None => Abbreviations::new(self.alloc, section, offset),
        };
        let before = mem::replace(&mut self.last, table);
        self.others.insert(before.offset, before)?;
        Ok(())
    }

    /// Finds the declaration of a code in the table at an offset. Returns a reader that begins at
    /// its specifications, or None where the table has no such declaration. Fails where memory is
    /// missing, and where tables overlap so much that more bytes would be read than may be.
    pub(crate) fn find(
        &mut self,
        section: &R,
        offset: R::Offset,
        code: u64,
    ) -> MemoryResult<Result<Option<R>>>
        requires { AreTables R.seen (R.seen section.now).bytes self.old }
        ensures tables { AreTables R.seen (R.seen section.now).bytes self.new }
        ensures found { IfOk result
            (λ found. result_map (option_map (λ part. listed (R.seen part).bytes)) found
            ≡ ((table_production (R.Offset.number offset) code).read
            (R.seen section.now).bytes).0) }
        ensures listed { IfOk result (λ found. IfOk found
            (λ found. IfSome found (λ part. IsListed (R.seen part).bytes))) }
    {
        self.turn_to(section, offset)?;
        self.last.find(code, &mut self.room)
    }
}
