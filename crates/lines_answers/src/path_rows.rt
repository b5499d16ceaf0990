//! Rows of paths by their addresses.

use lines_inputs::Result;
use std::alloc::Global;

/// How many rows are put in order at first.
const FEW: usize = 1024;

/// A row of a file of a path.
#[derive(Clone, Copy)]
pub(crate) struct PathRow {
    /// The number of the path.
    pub(crate) path: usize,
    pub(crate) address: u64,
    /// The group of the file.
    pub(crate) group: usize,
    pub(crate) column: u64,
}

impl PathRow {
    /// What rows are ordered by.
    fn key(&self) -> (usize, u64, usize) {
        (self.path, self.address, self.group)
    }
}

/// Rows of paths, of which the last one of each path, address and group counts.
#[derive(Drop)]
pub(crate) struct PathRows {
    rows: Vec<PathRow>,
    /// How many of them were left when they were put in order.
    ordered: usize,
}

impl PathRows {
    /// No rows.
    pub(crate) fn new(alloc: Global) -> PathRows {
        PathRows {
            rows: Vec::new(alloc),
            ordered: 0,
        }
    }

    /// Adds a row. Those that don't count are dropped whenever there are twice as many as before.
    pub(crate) fn push(&mut self, row: PathRow) -> Result<()> {
        self.rows.push(row)?;
        if self.rows.len() / 2 > self.ordered.max(FEW) {
            self.put_in_order()?;
        }
        Ok(())
    }

    /// Puts the rows in order, and drops those that don't count.
    pub(crate) fn put_in_order(&mut self) -> Result<()> {
        self.rows.sort_by_key(|row| row.key())?;
        self.rows.dedup_by(|row, before| {
            let is_later = row.key() == before.key();
            if is_later {
                *before = *row;
            }
            is_later
        });
        self.ordered = self.rows.len();
        Ok(())
    }

    /// The rows of a path, in the order of their addresses, once they are put in order.
    pub(crate) fn of_path(&self, path: usize) -> &[PathRow] {
        let start = self.rows.partition_point(|row| row.path < path);
        let end = self.rows.partition_point(|row| row.path <= path);
        self.rows.get(start..end).unwrap_or(&[])
    }

    /// Adds the addresses of all rows to others.
    pub(crate) fn add_addresses(&self, addresses: &mut Vec<u64>) -> Result<()> {
        for row in &self.rows {
            addresses.push(row.address)?;
        }
        Ok(())
    }
}

/// The column of the last of some rows in order that has an address.
pub(crate) fn column_at(rows: &[PathRow], address: u64) -> Option<u64> {
    let after = rows.partition_point(|row| row.address <= address);
    let row = rows.get(after.checked_sub(1)?)?;
    if row.address == address {
        Some(row.column)
    } else {
        None
    }
}
