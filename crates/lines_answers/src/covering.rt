//! Which rows cover addresses.

use crate::counted_rows::{CountedRow, CountedRows};
use gimli_core::Reader;
use gimli_line::LineRow;
use gimli_lookup::SectionLookup;
use lines_inputs::{Input, Result};
use std::alloc::{AllocError, Global};

/// A row that covers an address.
#[derive(Clone, Copy)]
pub(crate) struct CoveringRow {
    /// The index of its unit.
    pub(crate) unit: usize,
    pub(crate) row: LineRow,
    /// Where it ends.
    pub(crate) end: u64,
    /// The last statement of the sequence at its address up to it, where that is known.
    pub(crate) statement: Option<LineRow>,
}

/// The rows that cover addresses, as `SectionLookup::find` finds them.
#[derive(Drop)]
pub(crate) enum Covering<R: Reader> {
    /// For any address, by the rows of all units.
    Kept(SectionLookup<R>),
    /// For some addresses.
    Found(FoundRows),
}

/// The first row of a section that covers each of some addresses.
#[derive(Drop)]
pub(crate) struct FoundRows {
    /// The addresses in ascending order, each once.
    addresses: Vec<u64>,
    rows: Vec<Option<CoveringRow>>,
    /// For each address an index, its own or a later one: the addresses from its own up to that
    /// one, which doesn't count, have a row each.
    next: Vec<usize>,
}

impl FoundRows {
    /// No addresses, and so no rows.
    fn nothing(alloc: Global) -> FoundRows {
        FoundRows {
            addresses: Vec::new(alloc),
            rows: Vec::new(alloc),
            next: Vec::new(alloc),
        }
    }

    /// No row is found for these addresses yet.
    fn new(alloc: Global, addresses: Vec<u64>) -> Result<FoundRows> {
        let mut found = FoundRows {
            addresses,
            rows: Vec::new(alloc),
            next: Vec::new(alloc),
        };
        found.begin()?;
        Ok(found)
    }

    /// Puts the addresses in order. No row is found for them yet.
    fn begin(&mut self) -> Result<()> {
        self.addresses.sort_unstable();
        self.addresses.dedup();
        let count = self.addresses.len();
        self.rows.resize(count, None)?;
        for index in 0..count {
            self.next.push(index)?;
        }
        Ok(())
    }

    /// The index of the first address without a row, from an index on.
    fn first_free(&mut self, index: usize) -> usize {
        let mut free = index;
        for _ in 0..usize::MAX {
            let Some(after) = self.next.get(free).copied() else {
                break;
            };
            if after == free {
                break;
            }
            let further = self.next.get(after).copied().unwrap_or(after);
            if let Some(next) = self.next.get_mut(free) {
                *next = further;
            }
            free = further;
        }
        free
    }

    /// Takes a row for the addresses that it covers, as far as they have none.
    fn take(&mut self, covering: CoveringRow) {
        let (start, end) = (covering.row.address(), covering.end);
        let from = self.addresses.partition_point(|address| *address < start);
        let mut index = self.first_free(from);
        for _ in 0..self.addresses.len() {
            match self.addresses.get(index) {
                Some(address) if *address < end => {}
                _ => break,
            }
            if let Some(found) = self.rows.get_mut(index) {
                *found = Some(covering);
            }
            let after = index.saturating_add(1);
            if let Some(next) = self.next.get_mut(index) {
                *next = after;
            }
            index = self.first_free(after);
        }
    }

    /// Finds the rows in one run over the rows that count, unless there is no address.
    fn run<R: Reader>(&mut self, alloc: Global, input: &Input<R>, counts: &[u64]) -> Result<()> {
        if self.addresses.is_empty() {
            return Ok(());
        }
        let mut rows = CountedRows::new(alloc, input, counts);
        self.take_all(&mut rows)
    }

    /// Takes rows for the addresses that they cover.
    fn take_all<R: Reader>(&mut self, rows: &mut CountedRows<'_, R>) -> Result<()> {
        let mut last: Option<LineRow> = None;
        let mut statement = None;
        for _ in 0..u64::MAX {
            let Some(CountedRow { unit, row, stands }) = rows.next_row()? else {
                break;
            };
            match last {
                Some(last) if stands && last.address() < row.address() => {
                    self.take(CoveringRow {
                        unit,
                        row: last,
                        end: row.address(),
                        statement,
                    });
                }
                _ => {}
            }
            statement = statement_at(&row, last, statement);
            last = if stands && !row.end_sequence() {
                Some(row)
            } else {
                None
            };
        }
        Ok(())
    }

    /// The row that covers an address; None at one that isn't among these.
    fn find(&self, address: u64) -> Option<CoveringRow> {
        let index = self.addresses.partition_point(|other| *other < address);
        if *self.addresses.get(index)? != address {
            return None;
        }
        *self.rows.get(index)?
    }
}

/// The last statement up to a row at its address, from the last one up to the row before it.
fn statement_at(
    row: &LineRow,
    before: Option<LineRow>,
    statement: Option<LineRow>,
) -> Option<LineRow> {
    match before {
        _ if row.is_stmt() => Some(*row),
        Some(before) if before.address() == row.address() => statement,
        _ => None,
    }
}

impl<R: Reader> Covering<R> {
    /// For no address.
    pub(crate) fn nothing(alloc: Global) -> Covering<R> {
        Covering::Found(FoundRows::nothing(alloc))
    }

    /// Keeps the rows of all units.
    pub(crate) fn of_any(alloc: Global, input: &Input<R>) -> Result<Covering<R>> {
        let (size, lowest) = (input.notation.address_size.bytes(), input.notation.lowest);
        match SectionLookup::new(&input.lines, alloc, size, lowest) {
            Ok(lookup) => Ok(Covering::Kept(lookup)),
            Err(_) => Err(AllocError),
        }
    }

    /// Finds the rows that cover some addresses in one run over the rows that count.
    pub(crate) fn of_some(
        alloc: Global,
        input: &Input<R>,
        counts: &[u64],
        addresses: Vec<u64>,
    ) -> Result<Covering<R>> {
        let mut found = FoundRows::new(alloc, addresses)?;
        found.run(alloc, input, counts)?;
        Ok(Covering::Found(found))
    }

    /// The row that covers an address.
    pub(crate) fn find(&self, address: u64) -> Option<CoveringRow> {
        match self {
            Covering::Kept(lookup) => {
                let found = lookup.find(address)?;
                Some(CoveringRow {
                    unit: found.unit,
                    row: found.row,
                    end: found.next.address(),
                    statement: None,
                })
            }
            Covering::Found(found) => found.find(address),
        }
    }
}
