//! Addresses that are written: numbers, or symbols to which a linker gives numbers.

/// An address, or what is to become one.
#[derive(Clone, Copy, Debug, PartialEq, Eq, Hash)]
pub enum Address {
    /// An address that is known.
    Constant(u64),
    /// An address that is known when the sections are linked. Only a writer that knows of symbols
    /// takes it.
    Symbol {
        /// The symbol, by a number that the writer gives a meaning to.
        symbol: usize,
        /// What is added to the symbol's address.
        addend: i64,
    },
}
