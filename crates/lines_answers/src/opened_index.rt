//! The index that is queried, what names it, and how its places are printed.

ghost use Rattle.std.specs.Prelude.{◌≡◌, ◌≤◌, ◌<◌, ◌-◌, ◌↔◌};
ghost use Rattle.std.specs.Prelude.{IfOk, IfErr, IsTrue, None};
ghost use Rattle.std.specs.Option.{option_copied, option_map};
ghost use Rattle.gimli_index.specs.Meaning.{place_at, starts_of};
ghost use Rattle.gimli_index.specs.Sound.{IsSound};
ghost use Rattle.gimli_index.specs.Views.{index_of, place_of};
ghost use Rattle.lines_answers.specs.Indexes.{identity, IsAsked, IsRefused, IsStale};

use gimli_index::{IndexError, LineIndex, NoPath, Place};
use lines_inputs::{Asked, FoundPlace, Piece, PlacePrinter, Result, tell_of_unit};
use lines_words::{CodeAddress, Output};
use sha2::{Digest, Sha256};
use std::alloc::Global;
use std::fmt;

/// Why an index isn't queried.
#[derive(Clone, Copy)]
pub enum IndexFault {
    /// The bytes are no index, or one that isn't sound.
    Index(IndexError),
    /// The index is that of another program.
    Stale,
}

impl From<IndexError> for IndexFault {
    ghost use Rattle.lines_answers.specs.declared.opened_index.IndexFault.{IndexFault};

    ghost from_gives = { λ e fault. fault ≡ IndexFault.Index e };

    fn from(error: IndexError) -> IndexFault {
        IndexFault::Index(error)
    }
}

impl fmt::Display for IndexFault {
    fn fmt<W: fmt::Write>(&self, f: &mut fmt::Formatter<W>) -> fmt::Result {
        match self {
            IndexFault::Index(error) => write!(f, "{error}"),
            IndexFault::Stale => {
                f.write_str("the index is stale: it was made of another program; make it again")
            }
        }
    }
}

/// What names a program in its index: its build id, or where it has none, the SHA-256 of its line
/// programs.
pub(crate) fn identity_of(alloc: Global, build_id: Option<&[u8]>, lines: &[u8]) -> Result<Vec<u8>>
    ensures { IfOk result (λ named.
        named.items ≡ identity (option_copied build_id.entry) lines.now) }
{
    match build_id {
        Some(id) => Vec::from_slice(alloc, id),
        None => {
            let sum = Sha256::digest(lines);
            Vec::from_slice(alloc, &sum)
        }
    }
}

/// The index that bytes begin with. They come from elsewhere, so it is checked. Refused as
/// `LineIndex::open` and its `check` say, and where it isn't that of the program with this
/// identity, where one is known.
pub fn open_index<'i>(bytes: &'i [u8], identity: Option<&[u8]>) -> Result<LineIndex<'i>, IndexFault>
    ensures ok { IfOk result
        (λ index. IsAsked bytes.now (option_copied identity.entry) (index_of index)) }
    ensures err { IfErr result (IsRefused bytes.now (option_copied identity.entry)) }
{
    let index = LineIndex::open(bytes)?;
    if is_stale(index, identity) {
        return Err(IndexFault::Stale);
    }
    index.check()?;
    Ok(index)
}

/// Whether an index is that of another program.
fn is_stale(index: LineIndex<'_>, identity: Option<&[u8]>) -> bool
    ensures { IsTrue result ↔ IsStale (index_of index.entry) (option_copied identity.entry) }
{
    match identity {
        Some(own) => index.identity() != own,
        None => false,
    }
}

/// Where the code at an address comes from, of a program that was loaded so far above its own
/// addresses.
fn place_asked<'i>(index: LineIndex<'i>, bias: u64, address: u64) -> Option<Place<'i>>
    ensures below { address < bias → result ≡ None }
    ensures found { bias ≤ address → IsSound (index_of index.entry)
        → option_map place_of result
        ≡ place_at (address - bias) (starts_of (index_of index.entry)) }
{
    let own = address.checked_sub(bias)?;
    index.find(own)
}

/// An index that is queried, and how its places are printed.
#[derive(Drop)]
pub struct IndexPlaces<'i, 'r> {
    /// The index.
    pub index: LineIndex<'i>,
    /// What prints its places.
    pub printer: PlacePrinter<'r>,
}

impl IndexPlaces<'_, '_> {
    /// Prints the place of what is asked. A word that is no address is reported, and printed as an
    /// address without a place is.
    pub fn answer(&self, asked: Asked<'_>, output: &mut Output<'_>) {
        match asked {
            Asked::Address(CodeAddress::Linked(address)) => {
                print_place(&self.printer, self.index, address, output);
            }
            asked => self.printer.print_other(asked, output),
        }
    }
}

/// Why an index has no path, by the numbers of `docs/reference/INDEX.md`, "Sources".
const REASONS: [&str; 9] = [
    "reason 0",
    "a string is given by an index into the string offsets",
    "a string stands in the supplementary file",
    "the offset of a string is past the end of its section",
    "a string has no zero byte at its end",
    "a value is no string",
    "the header has no such directory",
    "the header has no such file",
    "the header of the unit is not known",
];

/// Prints the place of an address in an index. Why it has no path there is reported.
pub(crate) fn print_place(
    printer: &PlacePrinter<'_>,
    index: LineIndex<'_>,
    address: u64,
    output: &mut Output<'_>,
) {
    let Some(place) = place_asked(index, printer.request.bias, address) else {
        return printer.print(Some(address), None, None, output);
    };
    let found = FoundPlace {
        path: place.path.ok(),
        line: u64::from(place.line),
        column: u64::from(place.column),
        more: &[],
    };
    printer.print(Some(address), None, Some(found), output);
    match place.path {
        Ok(_) => {}
        Err(NoPath::Outside) => {
            let text = "at address %: the path is outside of the index";
            tell_of_unit(place.unit, text, &[Piece::Address(address)], output);
        }
        Err(NoPath::Reason(number)) => {
            let text = "at address %: the path was not known when the index was made: %%";
            let (word, number) = match REASONS.get(number as usize) {
                Some(reason) => (*reason, Piece::Word("")),
                None => ("reason ", Piece::Number(u64::from(number))),
            };
            let pieces = [Piece::Address(address), Piece::Word(word), number];
            tell_of_unit(place.unit, text, &pieces, output);
        }
    }
}
