//! The byte order and the size of an address, by which the numbers of a section are read.

ghost use Rattle.std.specs.Prelude.{◌≡◌, ◌↔◌, IsTrue, Some, codes};
ghost use Rattle.gimli_core.specs.Numbers.{is_address_size};

use gimli_core::RunTimeEndian;

/// How wide an address is.
#[derive(Clone, Copy, Debug, PartialEq, Eq)]
pub enum AddressSize {
    One,
    Two,
    Four,
    Eight,
}

impl AddressSize {
    ghost use Rattle.line_text.specs.OrderAndSize.{size_number};

    /// The number of bytes.
    pub fn bytes(self) -> u8
        ensures size { IsTrue (is_address_size result) }
        ensures number { result ≡ size_number self }
    {
        match self {
            AddressSize::One => 1,
            AddressSize::Two => 2,
            AddressSize::Four => 4,
            AddressSize::Eight => 8,
        }
    }
}

/// The byte order that a word names.
pub fn parse_order(word: &str) -> Option<RunTimeEndian>
    ensures little { (result ≡ Some RunTimeEndian.Little) ↔ (word.now ≡ codes "little") }
    ensures big { (result ≡ Some RunTimeEndian.Big) ↔ (word.now ≡ codes "big") }
{
    match word {
        "little" => Some(RunTimeEndian::Little),
        "big" => Some(RunTimeEndian::Big),
        _ => None,
    }
}

/// The size of an address: 1, 2, 4 or 8 bytes.
pub fn parse_size(word: &str) -> Option<AddressSize>
    ensures one { (result ≡ Some AddressSize.One) ↔ (word.now ≡ codes "1") }
    ensures two { (result ≡ Some AddressSize.Two) ↔ (word.now ≡ codes "2") }
    ensures four { (result ≡ Some AddressSize.Four) ↔ (word.now ≡ codes "4") }
    ensures eight { (result ≡ Some AddressSize.Eight) ↔ (word.now ≡ codes "8") }
{
    match word {
        "1" => Some(AddressSize::One),
        "2" => Some(AddressSize::Two),
        "4" => Some(AddressSize::Four),
        "8" => Some(AddressSize::Eight),
        _ => None,
    }
}
