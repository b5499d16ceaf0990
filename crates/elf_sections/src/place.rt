//! Where the sections of an object file stand.

/// Which addresses count where the sections of an object file, whose places in memory aren't known
/// yet, are relocated.
#[derive(Clone, Copy, Debug, PartialEq, Eq)]
pub enum SectionPlace {
    /// Each section stands at address 0, so an address is an offset in its section.
    AllAtZero,
    /// Only the addresses in the section of this index count, from 0 on. An address in another
    /// section that is in memory when the program runs (`SHF_ALLOC`) is all ones, as linkers mark
    /// code that they leave out. Other sections, such as those of debugging, stand at 0.
    Only(usize),
}
