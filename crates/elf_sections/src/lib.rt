//! The sections of an ELF file, by name: of 32 and of 64 bits, in both orders of bytes (System V
//! Application Binary Interface, chapter 4), what compressed sections hold, and what relocations of
//! object files change in them. It takes memory only for what it makes, and returns on every
//! input.
#![tactic(auto)]

mod code_bounds;
mod compression;
mod crc;
mod debug_file;
mod elf;
mod entries;
mod error;
mod file_range;
mod header;
mod layout;
mod machine;
mod note;
mod place;
mod relocating;
mod relocation;
mod section_bytes;
mod section_header;
mod section_table;
mod seeking;
mod stored;
mod symbol;
mod symbols;

pub use compression::usual_limit;
pub use crc::{crc32, crc32_more};
pub use debug_file::DebugLink;
pub use elf::Elf;
pub use error::ElfError;
pub use file_range::FileRange;
pub use place::SectionPlace;
pub use section_bytes::SectionBytes;
pub use seeking::{FileHeader, FileTable, SectionList};
pub use stored::StoredSection;
pub use symbols::{CodeSymbol, SymbolTable};
