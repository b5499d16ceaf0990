//! What readers drop or misread of a program that `write` takes.

ghost use Rattle.std.specs.Prelude.{◌≡◌, ◌+◌, ◌≤◌, false, List, ◌∷◌, length, nat_lt};
ghost use Rattle.std.specs.Prelude.{[], IfSome, IfNone, MatchOption, Some, None};
ghost use Rattle.std.specs.List.{list_all};
ghost use Rattle.gimli_build.specs.Built.{base_of};
ghost use Rattle.gimli_build.specs.Traps.{is_set_address, begins_unset, is_past_greatest};
ghost use Rattle.gimli_build.specs.Traps.{has_later_opcode, item_trap, trap_at, HaveNoTrap};
ghost use Rattle.gimli_build.specs.Traps.{traps_from, traps_of};
ghost use Rattle.gimli_build.specs.Traps.{IsTrapPlace};
ghost use Rattle.gimli_build.specs.declared.built.items.BuiltItem.{BuiltItem};

use crate::built::items::BuiltItem;
use crate::built::line_program::LineProgram;
use crate::built::row::LineRow;
use gimli_bytes::Address;
use gimli_core::ReaderAddress;
use std::marker::Model;

/// What readers drop or misread of a program that `write` takes. Where an item has several, the
/// first of these counts.
#[derive(Clone, Copy, Debug, PartialEq, Eq)]
pub enum Trap {
    /// The last row, if no end is after it: rows up to the next end are one sequence, and readers
    /// drop rows of no sequence (DWARF 5, section 6.2.5.3, DW_LNE_end_sequence).
    OpenSequence,
    /// A row or an end past the greatest address of the address size: the register can't hold it,
    /// and readers stop there, or wrap (section 6.2.2, address). A symbol counts as 0.
    AddressOverflow,
    /// A row of a file that isn't in the program's table: readers find no path for it (section
    /// 6.2.2, file).
    MissingFile,
    /// A row with something that a later version added: in version 2 `prologue_end`,
    /// `epilogue_begin` or an `isa`, and below version 4 a discriminator. Readers of the version
    /// skip such opcodes (section 6.2.4, standard_opcode_lengths, and section 6.2.5.3).
    LaterOpcode,
    /// The first row of a sequence, if no address was set before it: offsets count from 0 then
    /// (section 6.2.2, the registers at the start of a sequence).
    UnsetAddress,
}

/// Where a walk over the items is: the index of the next one, the address that offsets count from
/// there, and whether a row there begins a sequence whose address wasn't set.
#[derive(Clone, Copy)]
struct TrapPlace {
    next: usize,
    base: u64,
    begins: bool,
}

/// The traps of a program that are left, in order, each with the index of its item.
#[derive(Drop)]
pub struct Traps<'a> {
    program: &'a LineProgram,
    place: TrapPlace,
}

impl<'a> Model for Traps<'a> {
    ghost use Rattle.std.specs.Prelude.{List, ℕ};
    ghost use Rattle.gimli_build.specs.Traps.{traps_from};
    ghost use Rattle.gimli_build.specs.Traps.{IsTrapPlace};
    ghost use Rattle.gimli_build.specs.declared.built.trap.Trap.{Trap};

    ghost Value = { List (ℕ × Trap) };

    ghost view = { λ t. traps_from t.program.now t.place.next };

    ghost invariant = { λ t. IsTrapPlace t.program.now t.place.next t.place.base t.place.begins };
}

impl<'a> Iterator for Traps<'a> {
    ghost use Rattle.std.specs.Iterator.{YieldsFirst, item_count};

    type Item = (usize, Trap);

    ghost next_gives = { YieldsFirst (λ traps. traps) };

    ghost remaining = { item_count (λ traps. traps) };

    fn next(&mut self) -> Option<(usize, Trap)> {
        let (found, place) = first_trap(self.program, self.place);
        self.place = place;
        found
    }
}

impl LineProgram {
    /// The traps of all items, in order, each with the index of its item: one for an item, its
    /// first. It takes one walk over the items to read them all. Requires a program that isn't a
    /// placeholder.
    pub fn traps(&self) -> Traps<'_>
        requires { self.now.is_none ≡ false }
        ensures { result ≡ traps_of self.now }
    {
        let place = TrapPlace {
            next: 0,
            base: 0,
            begins: true,
        };
        Traps {
            program: self,
            place,
        }
    }

    /// The first item at or after an index that has a trap, by its own index in `items`, with its
    /// first trap. Requires a program that isn't a placeholder. It reads the items from the first
    /// one on; [`traps`](LineProgram::traps) yields the traps of all items in one walk.
    pub fn next_trap(&self, from: usize) -> Option<(usize, Trap)>
        requires { self.now.is_none ≡ false }
        ensures trap { IfSome result (λ found. trap_at self.now found.0 ≡ Some found.1) }
        ensures after { IfSome result (λ found. from ≤ found.0) }
        ensures first { IfSome result (λ found. HaveNoTrap self.now from found.0) }
        ensures none { IfNone result (HaveNoTrap self.now from (length self.now.items)) }
    {
        let items = self.built_items();
        let mut base = 0;
        let mut begins = true;
        for (index, item) in items.iter().enumerate() {
            let trap = trap_of(self, base, begins, item, &items[index + 1..]);
            if let Some(trap) = trap {
                if index >= from {
                    return Some((index, trap));
                }
            }
            base = base_after(base, item);
            begins = begins_after(item);
        }
        None
    }
}

/// The first trap from a place on, and the place after it.
fn first_trap(program: &LineProgram, place: TrapPlace) -> (Option<(usize, Trap)>, TrapPlace)
    requires { IsTrapPlace program.now place.next place.base place.begins }
    ensures place { IsTrapPlace program.now result.1.next result.1.base result.1.begins }
    ensures traps { MatchOption result.0
        ((traps_from program.now place.next ≡ []) × (traps_from program.now result.1.next ≡ []))
        (λ found. traps_from program.now place.next
        ≡ found ∷ traps_from program.now result.1.next) }
{
    let items = program.built_items();
    let mut base = place.base;
    let mut begins = place.begins;
    for index in place.next..items.len() {
        let item = &items[index];
        let trap = trap_of(program, base, begins, item, &items[index + 1..]);
        base = base_after(base, item);
        begins = begins_after(item);
        let next = index + 1;
        if let Some(trap) = trap {
            return (Some((index, trap)), TrapPlace { next, base, begins });
        }
    }
    let next = items.len();
    (None, TrapPlace { next, base, begins })
}

/// The address that offsets count from after an item.
fn base_after(base: u64, item: &BuiltItem) -> u64
    ensures { (past : List BuiltItem) → base ≡ base_of past → result ≡ base_of (item.now ∷ past) }
{
    match item {
        BuiltItem::SetAddress(Address::Constant(address)) => *address,
        BuiltItem::SetAddress(Address::Symbol { .. }) => 0,
        BuiltItem::Row(_) => base,
        BuiltItem::End { .. } => 0,
    }
}

/// Whether a row after an item begins a sequence whose address wasn't set.
fn begins_after(item: &BuiltItem) -> bool
    ensures { (past : List BuiltItem) → result ≡ begins_unset (item.now ∷ past) }
{
    matches!(item, BuiltItem::End { .. })
}

/// The first trap of an item that is followed by `others`, where offsets count from `base`;
/// `begins` says that a row there begins a sequence whose address wasn't set.
fn trap_of(
    program: &LineProgram,
    base: u64,
    begins: bool,
    item: &BuiltItem,
    others: &[BuiltItem],
) -> Option<Trap>
    requires { program.now.is_none ≡ false }
    ensures { result ≡ item_trap program.now base begins item.now others.now }
{
    match item {
        BuiltItem::SetAddress(_) => None,
        BuiltItem::Row(row) => {
            if are_set_addresses(others) {
                return Some(Trap::OpenSequence);
            }
            if is_past_greatest(program, base, row.address_offset) {
                return Some(Trap::AddressOverflow);
            }
            if !program.tables().contains(row.file) {
                return Some(Trap::MissingFile);
            }
            if has_later_opcode(program.version(), row) {
                return Some(Trap::LaterOpcode);
            }
            begins.then_some(Trap::UnsetAddress)
        }
        BuiltItem::End { address_offset, .. } => {
            is_past_greatest(program, base, *address_offset).then_some(Trap::AddressOverflow)
        }
    }
}

/// Whether each item sets an address.
fn are_set_addresses(items: &[BuiltItem]) -> bool
    ensures { result ≡ list_all is_set_address items.now }
{
    items.iter().all(|item| is_set_address(item))
}

/// Whether an item sets an address.
fn is_set_address(item: &BuiltItem) -> bool
    ensures { result ≡ is_set_address item.now }
{
    matches!(item, BuiltItem::SetAddress(_))
}

/// Whether an address is past the greatest one of the address size.
fn is_past_greatest(program: &LineProgram, base: u64, offset: u64) -> bool
    requires { program.now.is_none ≡ false }
    ensures { result ≡ is_past_greatest program.now (base + offset) }
{
    let encoding = program.encoding();
    base.add_sized(offset, encoding.address_size).is_err()
}

/// Whether a row has something that no opcode of the version can express.
fn has_later_opcode(version: u16, row: &LineRow) -> bool
    ensures { result ≡ has_later_opcode version row.now }
{
    let is_later = row.prologue_end || row.epilogue_begin || row.isa != 0;
    version < 3 && is_later || version < 4 && row.discriminator != 0
}
