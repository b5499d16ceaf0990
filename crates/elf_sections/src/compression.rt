//! What compressed sections hold.

ghost use Rattle.std.specs.Prelude.{◌≡◌, IfOk, IfErr};
ghost use Rattle.elf_sections.specs.Gives.{Gives, RefusesLarge};
ghost use Rattle.elf_sections.specs.Compression.{usual_limit, stream_bytes, zlib_kind};
ghost use Rattle.elf_sections.specs.Compression.{uncompressed, uncompressed_old, old_name};
ghost use Rattle.elf_sections.specs.declared.error.ElfError.TheVariants.{OutOfMemory};

use crate::error::{ElfError, fault_of};
use crate::layout::Layout;
use gimli_core::{Endianity, RunTimeEndian};
use std::alloc::Global;

/// Compressed in the zlib format (`ELFCOMPRESS_ZLIB`).
const ZLIB: u32 = 1;
/// Compressed by Zstandard (`ELFCOMPRESS_ZSTD`).
const ZSTD: u32 = 2;
/// The bytes that a section of the older form begins with.
const OLD_MAGIC: [u8; 4] = *b"ZLIB";
/// The bytes before the stream of a section of the older form.
const OLD_HEADER_SIZE: usize = 12;
/// The most bytes that a byte of a stream makes: two bits may copy 258 (RFC 1951, section 3.2.5).
const MOST_OF_A_BYTE: usize = 1032;

/// A limit for what a compressed section of a file may hold, in bytes, for callers that know no
/// better one: 256 times the size of the file, and 64 MiB more.
pub fn usual_limit(file_size: u64) -> u64
    ensures { result ≡ usual_limit file_size }
{
    file_size.saturating_mul(256).saturating_add(0x400_0000)
}

/// The bytes that a stream in the zlib format holds, if there are so many. A size above the limit,
/// and one that no stream of its length can have, are refused before memory is taken.
fn stream_bytes(alloc: Global, limit: u64, size: u64, stream: &[u8]) -> Result<Vec<u8>, ElfError>
    ensures gives { Gives (λ bytes. bytes.items) result (stream_bytes limit size stream.now) }
    ensures large { RefusesLarge result (stream_bytes limit size stream.now) }
{
    if size > limit {
        return Err(ElfError::SectionTooLarge(size));
    }
    let size = size as usize;
    if size / MOST_OF_A_BYTE > stream.len() {
        return Err(ElfError::Decompression(inflate::Error::OutputSmaller));
    }
    match inflate::decompress(alloc, stream, size) {
        Ok(bytes) => Ok(bytes),
        Err(fault) => Err(fault_of(fault)),
    }
}

/// Refuses a way of compression (`ch_type`) other than zlib's.
fn check_kind(kind: u32) -> Result<(), ElfError>
    ensures { result ≡ zlib_kind kind }
{
    match kind {
        ZLIB => Ok(()),
        ZSTD => Err(ElfError::Zstd),
        _ => Err(ElfError::UnknownCompression(kind)),
    }
}

/// What a compressed section holds. Its header (`Elf32_Chdr`, `Elf64_Chdr`) says how much that is.
pub(crate) fn uncompressed(
    alloc: Global,
    limit: u64,
    layout: Layout,
    bytes: &[u8],
) -> Result<Vec<u8>, ElfError>
    ensures gives { Gives (λ bytes. bytes.items) result (uncompressed limit layout bytes.now) }
    ensures large { RefusesLarge result (uncompressed limit layout bytes.now) }
{
    let address = usize::from(layout.address_size());
    if bytes.len() < 3 * address {
        return Err(ElfError::CompressionHeaderCut);
    }
    check_kind(layout.word(bytes, 0))?;
    let size = layout.address(bytes, address);
    stream_bytes(alloc, limit, size, &bytes[3 * address..])
}

/// What a section of the older form (`.zdebug_line`) holds.
pub(crate) fn uncompressed_old(alloc: Global, limit: u64, bytes: &[u8]) -> Result<Vec<u8>, ElfError>
    ensures gives { Gives (λ bytes. bytes.items) result (uncompressed_old limit bytes.now) }
    ensures large { RefusesLarge result (uncompressed_old limit bytes.now) }
{
    if bytes.len() < OLD_HEADER_SIZE {
        return Err(ElfError::CompressionHeaderCut);
    }
    if !bytes.starts_with(&OLD_MAGIC) {
        return Err(ElfError::NotZlib);
    }
    let size = RunTimeEndian::Big.read_u64(&bytes[OLD_MAGIC.len()..]);
    stream_bytes(alloc, limit, size, &bytes[OLD_HEADER_SIZE..])
}

/// The name of the older form of a section: `.zdebug_line` for `.debug_line`.
pub(crate) fn old_name(alloc: Global, name: &[u8]) -> Result<Vec<u8>, ElfError>
    ensures ok { IfOk result (λ old. old.items ≡ old_name name.now) }
    ensures err { IfErr result (λ e. e ≡ OutOfMemory) }
{
    let mut old = Vec::from_slice(alloc, b".z")?;
    if let [_, rest @ ..] = name {
        old.extend_from_slice(rest)?;
    }
    Ok(old)
}
