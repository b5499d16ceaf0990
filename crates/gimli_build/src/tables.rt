//! The tables of a unit: its directories and its files.

pub(crate) mod sizes;
pub(crate) mod unit_input;
pub(crate) mod version_4;
pub(crate) mod version_5;
