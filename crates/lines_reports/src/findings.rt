//! What a check has found, and what of it is reported.

use lines_inputs::{Piece, add, print, print_fields};
use lines_words::{FindingKind, Json, Output, Style};

/// What was found so far.
#[derive(Clone, Copy)]
pub(crate) struct Findings {
    /// The offset of the unit that is looked at.
    pub(crate) unit: u64,
    /// How many there were of each kind.
    counts: [u64; 13],
}

impl Findings {
    /// Nothing was found.
    pub(crate) fn new() -> Findings {
        Findings {
            unit: 0,
            counts: [0; 13],
        }
    }

    /// Counts a finding in the unit, and prints the sentence where such a finding is reported, with
    /// the byte of the section where a fault is. Sentences count rows from 1, without those that
    /// are left out, and have no character that JSON escapes.
    pub(crate) fn find(
        &mut self,
        kind: FindingKind,
        byte: Option<u64>,
        text: &str,
        pieces: &[Piece<'_>],
        output: &mut Output<'_>,
    ) {
        let (number, name, severity) = kind.entry();
        self.counts[number] = self.counts[number].saturating_add(1);
        let choice = output.check();
        output.judge(choice, kind);
        if !choice.is_all && !choice.counts(kind) {
            return;
        }
        let severity = severity.name();
        if output.is_json() {
            let fields = [
                ("unit", Json::Offset(Some(self.unit))),
                ("severity", Json::Word(severity)),
                ("kind", Json::Word(name)),
                ("byte", Json::Offset(byte)),
                ("message", Json::Written("\"")),
            ];
            output.add_fields("{", &fields);
            add(text, pieces, output);
            return output.print("\"}");
        }
        let Style { begin, end } = output.heading();
        let (begin, unit) = (Piece::Word(begin), Piece::Address(self.unit));
        let (end, severity) = (Piece::Word(end), Piece::Word(severity));
        add("%unit at %:% %: ", &[begin, unit, end, severity], output);
        add(text, pieces, output);
        print(" [%]", &[Piece::Word(name)], output);
    }

    /// Prints how many findings of each kind there were in so many units, and how many of them
    /// count.
    pub(crate) fn print_counts(&self, units: u64, output: &mut Output<'_>) {
        let mut findings = 0u64;
        for kind in FindingKind::ALL {
            let (number, name, severity) = kind.entry();
            let count = self.counts[number];
            if count > 0 {
                print_count(name, severity.name(), count, output);
            }
            if output.check().counts(kind) {
                findings = findings.saturating_add(count);
            }
        }
        let fields = [
            ("units", Piece::Number(units)),
            ("findings", Piece::Number(findings)),
        ];
        print_fields("units: %, findings: %", &fields, output);
    }
}

/// Prints how many findings of a kind there were.
fn print_count<'n>(name: &'n str, severity: &'n str, count: u64, output: &mut Output<'_>) {
    let (kind, severity) = (Piece::Word(name), Piece::Word(severity));
    let count = Piece::Number(count);
    if output.is_json() {
        let fields = [("severity", severity), ("kind", kind), ("count", count)];
        return print_fields("", &fields, output);
    }
    print("% (%): %", &[kind, severity, count], output);
}
