//! Laws of the grammar: a unit has one compilation or one refusal.

ghost use Rattle.std.specs.Prelude.{◌≡◌, ◌⊎◌, ℕ, List};
ghost use Rattle.gimli_compilation.specs.declared.refusal.Refusal.{Refusal};
ghost use Rattle.gimli_compilation.specs.declared.sections.Compilation.{Compilation};
ghost use Rattle.gimli_compilation.specs.Sections.{Sections};
ghost use Rattle.gimli_compilation.specs.Unit.{HasCompilationAt, HasRefusalAt};

/// At each offset a section has one compilation or one refusal, never both, and no second one.
pub fn one_answer()
    ensures some { (sections : Sections) (offset : ℕ) →
        ((compilation : Compilation (List ℕ)) × HasCompilationAt sections offset compilation)
        ⊎ ((refusal : Refusal) × HasRefusalAt sections offset refusal) }
    ensures both { (sections : Sections) (offset : ℕ) (compilation : Compilation (List ℕ))
        (refusal : Refusal) → HasCompilationAt sections offset compilation
        → HasRefusalAt sections offset refusal → ⊥ }
    ensures compilation { (sections : Sections) (offset : ℕ) (one other : Compilation (List ℕ))
        → HasCompilationAt sections offset one → HasCompilationAt sections offset other
        → one ≡ other }
    ensures refusal { (sections : Sections) (offset : ℕ) (one other : Refusal)
        → HasRefusalAt sections offset one → HasRefusalAt sections offset other → one ≡ other }
{}
