//! Pairs of adjacent rows. The first pair that covers an address is what a search finds there.

ghost use Rattle.std.specs.Prelude.{◌≡◌, ◌≤◌, ◌&&◌, ◌∷◌, [], is_none, map, IfErr, IfOk, OnOk};
ghost use Rattle.std.specs.List.{list_any};
ghost use Rattle.gimli_lookup.specs.inside.UnitSearch.{first_covering, is_covered};
ghost use Rattle.gimli_lookup.specs.inside.UnitSearch.{AreClear, AreKeptBehind};

use crate::section_lookup::CoveringRows;
use gimli_core::{Error, Result};
use std::alloc::Global;

/// Whether an address stands between the rows of a pair: at or above the first, and below the
/// second.
fn covers(pair: &CoveringRows, a: u64) -> bool
    ensures { result ≡ is_covered a pair.now }
{
    pair.row.address() <= a && a < pair.next.address()
}

/// The first of some pairs that an address stands between.
fn first_covering(pairs: &[CoveringRows], a: u64) -> Option<CoveringRows>
    ensures { result ≡ first_covering a pairs.now }
{
    for pair in pairs {
        if covers(pair, a) {
            return Some(*pair);
        }
    }
    None
}

/// Whether one of the addresses stands between the rows of a pair, and between those of none of the
/// pairs so far.
fn is_wanted(addresses: &[u64], pairs: &[CoveringRows], pair: &CoveringRows) -> bool
    ensures { result
        ≡ list_any (λ a. is_covered a pair.now && is_none (first_covering a pairs.now))
        addresses.now }
{
    for a in addresses {
        if covers(pair, *a) && first_covering(pairs, *a).is_none() {
            return true;
        }
    }
    false
}

/// Keeps a pair behind others, if one of the addresses needs it. Fails only with `OutOfMemory`.
pub(crate) fn keep_pair(
    addresses: &[u64],
    pairs: &mut Vec<CoveringRows>,
    pair: CoveringRows,
) -> Result<()>
    ensures ok { OnOk result
        (AreKeptBehind addresses.now pairs.old.items (pair ∷ []) pairs.new.items) }
    ensures err { IfErr result (λ e. e ≡ Error.OutOfMemory) }
{
    if !is_wanted(addresses, pairs.as_slice(), &pair) {
        return Ok(());
    }
    if pairs.push(pair).is_err() {
        return Err(Error::OutOfMemory);
    }
    Ok(())
}

/// Keeps pairs behind others, as far as one of the addresses needs them. Fails only with
/// `OutOfMemory`.
pub(crate) fn keep_pairs(
    addresses: &[u64],
    pairs: &mut Vec<CoveringRows>,
    found: &[CoveringRows],
) -> Result<()>
    ensures ok { OnOk result
        (AreKeptBehind addresses.now pairs.old.items found.now pairs.new.items) }
    ensures err { IfErr result (λ e. e ≡ Error.OutOfMemory) }
{
    for pair in found {
        keep_pair(addresses, pairs, *pair)?;
    }
    Ok(())
}

/// For each address the first pair that it stands between. Fails only with `OutOfMemory`.
pub(crate) fn first_of_each(
    alloc: Global,
    addresses: &[u64],
    pairs: &[CoveringRows],
) -> Result<Vec<Option<CoveringRows>>>
    ensures ok { IfOk result (λ rows.
        rows.items ≡ map (λ a. first_covering a pairs.now) addresses.now) }
    ensures err { IfErr result (λ e. e ≡ Error.OutOfMemory) }
{
    let mut rows = Vec::new(alloc);
    for a in addresses {
        if rows.push(first_covering(pairs, *a)).is_err() {
            return Err(Error::OutOfMemory);
        }
    }
    Ok(rows)
}

/// The lesser of `clear` and the address `a`, but `clear` if `a` is below `from`.
fn nearer(clear: u64, from: u64, a: u64) -> u64
    ensures found { result ≤ clear }
    ensures asked { from ≤ a → result ≤ a }
{
    if from <= a { clear.min(a) } else { clear }
}

/// The lowest of these addresses that is at or above `from`; the highest address of all if there is
/// none.
pub(crate) fn clear_from(addresses: &[u64], from: u64) -> u64
    ensures { AreClear addresses.now from result }
{
    let mut clear = u64::MAX;
    for a in addresses {
        clear = nearer(clear, from, *a);
    }
    clear
}
