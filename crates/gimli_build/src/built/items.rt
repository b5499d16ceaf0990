//! What is built in a program, in order: set addresses, rows and ends of sequences.

use crate::built::row::LineRow;
use gimli_bytes::{Address, Error, Result};
use std::alloc::{AllocError, Global};
use std::marker::Model;

/// What was built in a line program, as it was given.
#[derive(Clone, Copy, Debug, PartialEq, Eq)]
pub enum BuiltItem {
    // Rows are first, since most items are rows, and the first variant is tested first.
    /// A row that was generated.
    Row(LineRow),
    /// An address that was set: offsets after it count from there.
    SetAddress(Address),
    /// The end of a sequence.
    End {
        /// How many bytes the end is after the address that was last set.
        address_offset: u64,
        /// Which operation of the machine instruction there, from 0 on.
        op_index: u64,
    },
}

impl BuiltItem {
    ghost use Rattle.std.specs.Prelude.{◌≡◌};
    ghost use Rattle.gimli_build.specs.Built.{position_after};

    /// The offset and op_index that the next row or end is compared with.
    #[inline(always)]
    pub(crate) fn position(&self) -> (u64, u64)
        ensures { result ≡ position_after self.now }
    {
        match self {
            BuiltItem::Row(row) => (row.address_offset, row.op_index),
            _ => (0, 0),
        }
    }
}

/// Items as they are built, and the position that the next one is compared with.
#[derive(Debug, Drop)]
pub(crate) struct ItemList {
    items: Vec<BuiltItem>,
    position: (u64, u64),
}

impl Model for ItemList {
    ghost use Rattle.std.specs.Prelude.{◌≡◌, List};
    ghost use Rattle.gimli_build.specs.Built.{previous_position};
    ghost use Rattle.gimli_build.specs.declared.built.items.BuiltItem.{BuiltItem};

    ghost Value = { List BuiltItem };

    ghost view = { λ list. list.items.items };

    ghost invariant = { λ list. list.position ≡ previous_position list.items.items };
}

impl ItemList {
    ghost use Rattle.std.specs.Prelude.{◌≡◌, [], ◌∷◌, ◌++◌, IsTrue, ◌↔◌, OnOk, OnErr, IsOkUnless};
    ghost use Rattle.gimli_build.specs.Built.{previous_position};

    /// No items.
    pub(crate) fn new(alloc: Global) -> ItemList
        ensures { result ≡ [] }
    {
        ItemList {
            items: Vec::new(alloc),
            position: (0, 0),
        }
    }

    /// The items, in order.
    pub(crate) fn as_slice(&self) -> &[BuiltItem]
        ensures { result.now ≡ self.now }
    {
        self.items.as_slice()
    }

    /// Whether there is no item.
    pub(crate) fn is_empty(&self) -> bool
        ensures { IsTrue result ↔ (self.now ≡ []) }
    {
        self.items.is_empty()
    }

    /// The offset and op_index that the next row or end is compared with.
    pub(crate) fn position(&self) -> (u64, u64)
        ensures { result ≡ previous_position self.now }
    {
        self.position
    }

    /// Appends an item. Fails only with `OutOfMemory`; then nothing changes.
    #[inline(always)]
    pub(crate) fn push(&mut self, item: BuiltItem) -> Result<()>
        ensures ok { OnOk result (self.new ≡ self.old ++ item ∷ []) }
        ensures err { OnErr result (self.new ≡ self.old) }
        ensures memory { IsOkUnless result Error.OutOfMemory }
    {
        self.items.reserve(1)?;
        self.position = item.position();
        self.items.push_reserved(item);
        Ok(())
    }
}

impl Clone for ItemList {
    ghost use Rattle.std.specs.Prelude.{◌≡◌};

    ghost is_clone = { λ list copy. copy ≡ list };

    fn clone(&self) -> std::result::Result<ItemList, AllocError> {
        Ok(ItemList {
            items: self.items.clone()?,
            position: self.position,
        })
    }
}

/// The items of a line program, in the order in which they were built.
#[derive(Debug, Drop)]
pub struct BuiltItems<'a>(&'a [BuiltItem]);

impl<'a> Model for BuiltItems<'a> {
    ghost use Rattle.std.specs.Prelude.{List};
    ghost use Rattle.gimli_build.specs.declared.built.items.BuiltItem.{BuiltItem};

    ghost Value = { List BuiltItem };

    ghost view = { λ items. items.0.now };
}

impl<'a> BuiltItems<'a> {
    ghost use Rattle.std.specs.Prelude.{◌≡◌};

    pub(crate) fn new(items: &'a [BuiltItem]) -> BuiltItems<'a>
        ensures { result ≡ items.now }
    {
        BuiltItems(items)
    }
}

impl<'a> Iterator for BuiltItems<'a> {
    ghost use Rattle.std.specs.Iterator.{YieldsFirstRef, item_count};

    type Item = &'a BuiltItem;

    ghost next_gives = { YieldsFirstRef (λ items. items) };

    ghost remaining = { item_count (λ items. items) };

    fn next(&mut self) -> Option<&'a BuiltItem> {
        let (first, others) = self.0.split_first()?;
        self.0 = others;
        Some(first)
    }
}
