//! Checks in code, of what no clause and no row of input and output can say: tables of cases, each
//! with what is expected of it by hand. A line for each check says whether it passed, or which case
//! failed first; then come the texts of errors.
//!
//! They use public names alone.
#![tactic(auto)]

mod compilations;
mod converted;
mod elf_files;
mod errors;
mod lookups;
mod many;
mod own_writer;
mod programs;
mod readers;
mod relocations;
mod units;

use gimli_write::ConvertResult;
use std::alloc::Global;
use std::io;

/// The number of the first case that fails, or a refusal that no case expects.
type Found = ConvertResult<Option<usize>>;

/// The number of the first part that is false.
fn first_false(found: &[bool]) -> Option<usize> {
    found.iter().position(|it| !*it)
}

/// Each check, and what it finds.
fn checks(alloc: Global) -> [(&'static str, Found); 24] {
    [
        ("readers::skipped", readers::skipped()),
        ("lookups::narrow_unit", lookups::narrow_unit(alloc)),
        (
            "programs::late_directories",
            programs::late_directories(alloc),
        ),
        ("programs::found_needs", programs::found_needs(alloc)),
        ("lookups::wide_numbers", lookups::wide_numbers(alloc)),
        ("lookups::many", lookups::many(alloc)),
        ("relocations::calls", relocations::calls(alloc)),
        ("relocations::unit", relocations::unit(alloc)),
        ("converted::refused", converted::refused(alloc)),
        ("many::writers_and_tables", many::writers_and_tables(alloc)),
        ("many::conversions", many::conversions(alloc)),
        ("own_writer::refused", own_writer::refused(alloc)),
        ("errors::turned", errors::turned()),
        ("compilations::units", compilations::units(alloc)),
        ("compilations::texts", compilations::texts(alloc)),
        (
            "compilations::overlapping",
            compilations::overlapping(alloc),
        ),
        ("compilations::lines", compilations::lines(alloc)),
        ("elf_files::relocated", elf_files::relocated(alloc)),
        ("elf_files::sought", elf_files::sought(alloc)),
        ("elf_files::outlines", elf_files::outlines(alloc)),
        ("elf_files::cut", elf_files::cut(alloc)),
        ("elf_files::huge", elf_files::huge(alloc)),
        ("elf_files::limits", elf_files::limits(alloc)),
        ("elf_files::checksums", elf_files::checksums(alloc)),
    ]
}

fn main(rt: HostRuntime) -> io::Result<()> {
    for (name, found) in checks(rt.alloc()) {
        match found {
            Ok(None) => println!(rt; "test {name} ... ok")?,
            Ok(Some(case)) => println!(rt; "test {name} ... FAILED at case {case}")?,
            Err(e) => println!(rt; "test {name} ... FAILED by {e:?}")?,
        }
    }
    if let Ok(text) = errors::texts(rt.alloc()) {
        print!(rt; "{text}")?;
    }
    Ok(())
}
