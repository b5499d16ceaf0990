//! Lines and words of the programs: rows, sequences and bytes as they are printed, and the byte
//! order, the size of an address and the digits of a number as they are read.
#![tactic(auto)]

mod digits;
mod order_and_size;
mod print;
mod row_line;
mod short_line;
mod unit_location;

pub use digits::parse_digits;
pub use order_and_size::{AddressSize, parse_order, parse_size};
pub use print::{BytesLine, Digits, Text, print_bytes};
pub use row_line::{RowLine, SequenceLine, Words};
pub use short_line::ShortLine;
pub use unit_location::{Slice, UnitLocation};
