//! A header, a line for each part, and the instructions of a program, a line for each.

use crate::command::Lender;
use crate::lines::Lines;
use crate::lines::Piece::{Digits, Flags, Hex, Number, Signed, Word};
use gimli_core::{AttributeValue, Format, ReaderOffset};
use gimli_line::{FileEntry, FileEntryFormat, LineInstruction, LineProgramHeader};

/// Prints a header.
pub(crate) fn print_header<R: Lender>(header: &LineProgramHeader<R>, lines: &mut Lines) {
    print_numbers(header, lines);
    let lengths = header.standard_opcode_lengths();
    print_bytes("standard_opcode_lengths", lengths, lines);
    print_formats("directory_format", header.directory_entry_format(), lines);
    print_directories(header, lines);
    print_formats("file_format", header.file_name_entry_format(), lines);
    print_files(header, lines);
    let has = [
        (header.file_has_timestamp(), " timestamp"),
        (header.file_has_size(), " size"),
        (header.file_has_md5(), " md5"),
        (header.file_has_source(), " source"),
    ];
    lines.print("has%\n", &[Flags(&has, "")]);
    print_bytes("program", &header.raw_program_buf(), lines);
}

/// Prints where a header stands, its lengths, and what its numbers and its rows are encoded by.
fn print_numbers<R: Lender>(header: &LineProgramHeader<R>, lines: &mut Lines) {
    let bits = match header.format() {
        Format::Dwarf32 => 32,
        Format::Dwarf64 => 64,
    };
    let is_stmt = [(header.default_is_stmt(), "true")];
    let numbers = [
        Number(header.offset().0.into_u64()),
        Number(header.unit_length().into_u64()),
        Number(bits),
        Number(u64::from(header.version())),
        Number(u64::from(header.address_size())),
        Number(header.header_length().into_u64()),
        Number(u64::from(header.minimum_instruction_length())),
        Number(u64::from(header.maximum_operations_per_instruction())),
        Flags(&is_stmt, "false"),
        Signed(i64::from(header.line_base())),
        Number(u64::from(header.line_range())),
        Number(u64::from(header.opcode_base())),
    ];
    let text = "offset %\nunit_length %\nformat %\nversion %\naddress_size %\nheader_length %\n\
        minimum_instruction_length %\nmaximum_operations_per_instruction %\ndefault_is_stmt %\n\
        line_base %\nline_range %\nopcode_base %\n";
    lines.print(text, &numbers);
}

/// Prints bytes after a word, and the word alone where there are none.
fn print_bytes<'x, R: Lender>(word: &'x str, bytes: &'x R, lines: &mut Lines) {
    let bytes = bytes.lent_bytes();
    let blank = if bytes.is_empty() { "" } else { " " };
    lines.print("%%%\n", &[Word(word), Word(blank), Digits(bytes)]);
}

/// Prints the formats of a table, after a word each.
fn print_formats(word: &str, formats: &[FileEntryFormat], lines: &mut Lines) {
    for format in formats {
        let content = Hex(u64::from(format.content_type.0));
        let form = Hex(u64::from(format.form.0));
        lines.print("% % %\n", &[Word(word), content, form]);
    }
}

/// Prints the directories that an index finds.
fn print_directories<R: Lender>(header: &LineProgramHeader<R>, lines: &mut Lines) {
    let last = header.include_directories().len() as u64;
    for index in 0..=last {
        if let Some(directory) = header.directory(index) {
            lines.print("directory % ", &[Number(index)]);
            add_value(&directory, lines);
            lines.print("\n", &[]);
        }
    }
}

/// Prints the files that an index finds.
fn print_files<R: Lender>(header: &LineProgramHeader<R>, lines: &mut Lines) {
    let last = header.file_names().len() as u64;
    for index in 0..=last {
        if let Some(file) = header.file(index) {
            lines.print("file % ", &[Number(index)]);
            print_file(file, lines);
        }
    }
}

/// Prints a file: its values, in the order of the tables of version 5.
fn print_file<R: Lender>(file: &FileEntry<R>, lines: &mut Lines) {
    add_value(&file.path_name(), lines);
    let (directory, time) = (Number(file.directory_index()), Number(file.timestamp()));
    let (size, md5) = (Number(file.size()), Digits(file.md5()));
    let text = " dir % time % size % md5 % source ";
    lines.print(text, &[directory, time, size, md5]);
    match &file.source() {
        Some(source) => add_value(source, lines),
        None => lines.print("-", &[]),
    }
    lines.print("\n", &[]);
}

/// Prints the instructions of a program, up to the first refusal.
pub(crate) fn print_instructions<R: Lender>(header: &LineProgramHeader<R>, lines: &mut Lines) {
    let mut instructions = header.instructions();
    'instructions: loop {
        match instructions.next_instruction(header) {
            Ok(Some(instruction)) => print_instruction(&instruction, lines),
            Ok(None) => return,
            Err(e) => return lines.put_refusal("error ", e),
        }
    }
}

/// Prints the line of an instruction: its variant and its operands.
fn print_instruction<R: Lender>(instruction: &LineInstruction<R>, lines: &mut Lines) {
    let (text, opcode, operands) = match instruction {
        LineInstruction::UnknownStandard0(opcode) => ("UnknownStandard0(%)\n", opcode.0, Word("")),
        LineInstruction::UnknownStandard1(opcode, n) => {
            ("UnknownStandard1(%, %)\n", opcode.0, Number(*n))
        }
        LineInstruction::UnknownStandardN(opcode, operands) => {
            let operands = Digits(operands.lent_bytes());
            ("UnknownStandardN(%, %)\n", opcode.0, operands)
        }
        LineInstruction::UnknownExtended(opcode, operands) => {
            let operands = Digits(operands.lent_bytes());
            ("UnknownExtended(%, %)\n", opcode.0, operands)
        }
        LineInstruction::DefineFile(file) => return print_defined(file, lines),
        known => return lines.put_error("", *known),
    };
    lines.print(text, &[Number(u64::from(opcode)), operands]);
}

/// Prints the line of a file that is defined: its path, directory, timestamp and size.
fn print_defined<R: Lender>(file: &FileEntry<R>, lines: &mut Lines) {
    let directory = Number(file.directory_index());
    let time = Number(file.timestamp());
    lines.print("DefineFile(", &[]);
    add_value(&file.path_name(), lines);
    lines.print(", %, %, %)\n", &[directory, time, Number(file.size())]);
}

/// Prints a value of a form, as a part of a line: its variant, and in brackets what it holds.
fn add_value<R: Lender>(value: &AttributeValue<R>, lines: &mut Lines) {
    let (text, held) = match value {
        AttributeValue::Block(bytes) => ("Block(%)", Digits(bytes.lent_bytes())),
        AttributeValue::String(bytes) => ("String(%)", Digits(bytes.lent_bytes())),
        AttributeValue::DebugStrRef(n) => ("DebugStrRef(%)", Number(n.0.into_u64())),
        AttributeValue::DebugStrRefSup(n) => ("DebugStrRefSup(%)", Number(n.0.into_u64())),
        AttributeValue::DebugLineStrRef(n) => ("DebugLineStrRef(%)", Number(n.0.into_u64())),
        AttributeValue::DebugStrOffsetsIndex(n) => {
            ("DebugStrOffsetsIndex(%)", Number(n.0.into_u64()))
        }
        number => return lines.put(*number),
    };
    lines.print(text, &[held]);
}
