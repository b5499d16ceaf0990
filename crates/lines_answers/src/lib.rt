//! The commands of `lines` that report where code comes from: `at`, `source`, and `index`, whose
//! file `where` queries too.
#![tactic(auto)]

mod addresses;
mod components;
mod counted_rows;
mod covering;
mod hints;
mod line_answers;
mod line_search;
mod made_index;
mod meant_files;
mod opened_index;
mod path_digests;
mod path_rows;
mod section_strings;
mod source;
mod written_path;

pub use addresses::Addresses;
pub use line_answers::LineAnswers;
pub use made_index::{MadeIndex, index_of_program, program_identity};
pub use opened_index::{IndexFault, IndexPlaces, open_index};
pub use source::SourceRows;
