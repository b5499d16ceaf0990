//! The kinds of what a check finds, how grave each is, and which of them a caller denies or allows.

ghost use Rattle.std.specs.Prelude.{◌≡◌, ◌<◌};
ghost use Rattle.lines_words.specs.Findings.{is_denied, is_grave, is_in, number, severity};

/// How grave a finding is.
#[derive(Clone, Copy)]
pub enum Severity {
    /// A rule of DWARF is broken: what is read means nothing.
    Fault,
    /// Rows that no address finds.
    Lost,
    /// What is allowed and unusual.
    Odd,
    /// What compilers and linkers do.
    Usual,
}

/// What kind a finding is of.
#[derive(Clone, Copy)]
pub enum FindingKind {
    /// The header is refused.
    Header,
    /// An instruction is refused.
    Program,
    /// The path of a file isn't known.
    NoPath,
    /// A row names a file that the header doesn't have.
    NoFile,
    /// Addresses go down within a sequence.
    GoesDown,
    /// A sequence begins below the code.
    BelowCode,
    /// A sequence begins past the code.
    PastCode,
    /// No sequence ends after the last rows.
    NoEnd,
    /// Two files have one path.
    SamePath,
    /// Two sequences overlap.
    Overlap,
    /// File 0 of version 5 is in the table once more.
    FileZero,
    /// Two sequences have the same addresses.
    Merged,
    /// Code was dropped.
    Dropped,
}

impl FindingKind {
    /// All of them, the gravest first.
    pub const ALL: [FindingKind; 13] = [
        FindingKind::Header,
        FindingKind::Program,
        FindingKind::NoPath,
        FindingKind::NoFile,
        FindingKind::GoesDown,
        FindingKind::BelowCode,
        FindingKind::PastCode,
        FindingKind::NoEnd,
        FindingKind::SamePath,
        FindingKind::Overlap,
        FindingKind::FileZero,
        FindingKind::Merged,
        FindingKind::Dropped,
    ];

    /// Its place among all, its name, and how grave it is.
    pub fn entry(self) -> (usize, &'static str, Severity)
        ensures number { result.0 ≡ number self }
        ensures bound { result.0 < 13 }
        ensures severity { result.2 ≡ severity self }
    {
        match self {
            FindingKind::Header => (0, "header", Severity::Fault),
            FindingKind::Program => (1, "program", Severity::Fault),
            FindingKind::NoPath => (2, "no-path", Severity::Fault),
            FindingKind::NoFile => (3, "no-file", Severity::Fault),
            FindingKind::GoesDown => (4, "goes-down", Severity::Lost),
            FindingKind::BelowCode => (5, "below-code", Severity::Lost),
            FindingKind::PastCode => (6, "past-code", Severity::Lost),
            FindingKind::NoEnd => (7, "no-end", Severity::Lost),
            FindingKind::SamePath => (8, "same-path", Severity::Odd),
            FindingKind::Overlap => (9, "overlap", Severity::Odd),
            FindingKind::FileZero => (10, "file-0", Severity::Usual),
            FindingKind::Merged => (11, "merged", Severity::Usual),
            FindingKind::Dropped => (12, "dropped", Severity::Usual),
        }
    }
}

impl Severity {
    /// Its name.
    pub fn name(self) -> &'static str {
        match self {
            Severity::Fault => "fault",
            Severity::Lost => "lost",
            Severity::Odd => "odd",
            Severity::Usual => "usual",
        }
    }

    /// Whether it makes the status 1 by itself.
    fn is_grave(self) -> bool
        ensures { result ≡ is_grave self }
    {
        matches!(self, Severity::Fault | Severity::Lost)
    }
}

/// Adds to these the kinds that a word names: one, or all kinds of a severity. False where it names
/// none.
pub(crate) fn add_kinds(kinds: &mut [bool; 13], word: &str) -> bool {
    let mut is_known = false;
    for kind in FindingKind::ALL {
        let (number, name, severity) = kind.entry();
        if word == name || word == severity.name() {
            kinds[number] = true;
            is_known = true;
        }
    }
    is_known
}

/// Whether a kind is among these.
fn holds(kinds: [bool; 13], kind: FindingKind) -> bool
    ensures { result ≡ is_in kinds kind }
{
    kinds[kind.entry().0]
}

/// What a check reports, and what makes its status 1.
#[derive(Clone, Copy)]
pub struct CheckChoice {
    /// The kinds that make it 1 besides faults and lost rows.
    pub denied: [bool; 13],
    /// Those that are only counted, whatever else is said of them.
    pub allowed: [bool; 13],
    /// Whether what is only counted is reported too.
    pub is_all: bool,
}

impl CheckChoice {
    /// Whether a finding of a kind makes the status 1.
    pub fn denies(self, kind: FindingKind) -> bool
        ensures { result ≡ is_denied self.allowed self.denied kind }
    {
        !holds(self.allowed, kind) && (kind.entry().2.is_grave() || holds(self.denied, kind))
    }

    /// Whether it counts as something to look at.
    pub fn counts(self, kind: FindingKind) -> bool {
        let is_odd = matches!(kind.entry().2, Severity::Odd);
        self.denies(kind) || is_odd && !holds(self.allowed, kind)
    }
}
