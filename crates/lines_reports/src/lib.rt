//! The commands of `lines` that report what line programs hold: `units`, `files`, `rows`, `check`,
//! `stat` and `diff`.
//!
//! [`Tally`] counts what the bytes of a section are spent on, [`Coverage`] which bytes of code each
//! line of a file has, and [`Change`] says how those of two programs differ.
#![tactic(auto)]

mod check;
mod coverage;
mod diff;
mod file_check;
mod file_list;
mod findings;
pub mod laws;
mod overlaps;
mod path_numbers;
mod report;
mod row_check;
mod row_list;
mod sizes;
mod spent;
mod stat;
mod tally;
mod unit_check;
mod unit_list;

pub use coverage::{Change, Coverage, LinePlace};
pub use diff::Diff;
pub use report::Report;
pub use spent::Spent;
pub use tally::{Share, Tally};
