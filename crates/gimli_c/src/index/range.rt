//! The ranges of an index, one by one.

ghost use Rattle.std.specs.Prelude.{◌≡◌, ◌≢◌, MatchOption};
ghost use Rattle.gimli_index.specs.Spans.{StandsIn};
ghost use Rattle.gimli_index.specs.Views.{index_of};
ghost use Rattle.gimli_c.specs.Indexed.{HasNoStart, IsIndex, IsNoIndex, SeesStart};

use crate::index::header::index_in;
use crate::index::place::{GimliPlace, place_seen, unknown_place};
use crate::status::{NO_ROW, OK};
use gimli_index::{LineIndex, PlaceSpan};

/// What holds from the start of a number on; none where there is no such start.
fn range_in(stored: &[u8], index: &LineIndex<'_>, number: usize) -> Option<GimliPlace>
    requires stored { IsIndex stored.now (index_of index.now) }
    requires stands { StandsIn stored.now (index_of index.now) }
    ensures { MatchOption result (HasNoStart stored.now number) (SeesStart stored.now number) }
{
    let start = index.get_span(number)?;
    let (first, end) = (start.first, start.end);
    match start.place {
        Some(place) => Some(place_seen(
            index,
            first,
            PlaceSpan {
                first,
                end,
                ..place
            },
        )),
        None => Some(unknown_place(first, first, end.unwrap_or(0))),
    }
}

/// Tells what an index says from the start of a number on. Each status is that of
/// `include/gimli_line.h`. Takes no memory.
#[unsafe(no_mangle)]
pub extern "C" fn gimli_line_index_range(
    stored: &[u8],
    number: usize,
    place: &mut GimliPlace,
) -> u32
    ensures found { result ≡ OK → SeesStart stored.now number place.new }
    ensures none { result ≡ NO_ROW → HasNoStart stored.now number }
    ensures refused { result ≢ OK → result ≢ NO_ROW → IsNoIndex stored.now result }
    ensures kept { result ≢ OK → place.new ≡ place.old }
{
    let index = match index_in(stored) {
        Ok(index) => index,
        Err(status) => return status,
    };
    match range_in(stored, &index, number) {
        Some(found) => {
            *place = found;
            OK
        }
        None => NO_ROW,
    }
}
