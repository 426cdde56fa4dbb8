//! Laws of the definitions. Each function does nothing: its contract is the law.

ghost use Rattle.hh_saved.specs.Laws.{SpellingsAreUnique, SpellingsAreRead, FilesReadAlikeHoldOneValue, VersionTwoSpellsVersionOne};
ghost use Rattle.hh_saved.specs.Laws.{FaultsAreFirst, SummariesAreBounded, SummariesAreBoundedByK, TablesHaveOneSize};

/// Two values share no spelling, and no spelling is a proper prefix of another, whatever the
/// versions.
pub fn spellings_are_unique()
    ensures { SpellingsAreUnique }
{}

/// What is written is read again, and each value that version 1 can spell is written in version 2.
pub fn spellings_are_read()
    ensures read { SpellingsAreRead }
    ensures rewritten { VersionTwoSpellsVersionOne }
{}

/// Two files that are read alike hold one value, whatever their versions. Those of one version are
/// then the same.
pub fn files_read_alike_hold_one_value()
    ensures { FilesReadAlikeHoldOneValue }
{}

/// The fault of a text is that of its first field from the left that is short or fails. Each text
/// that begins with the bytes up to that field's end has it, and one that ends before is cut short.
/// Where no field is short or fails, bytes follow those of a value.
pub fn faults_are_first()
    ensures { FaultsAreFirst }
{}

/// Bounds the length of saved values: of a summary by k and its longest key, or by k alone, and of
/// a table exactly, by its rows and their width.
#[tactic(auto, using(crate::proofs::Sizes::bounded, crate::proofs::Sizes::bounded_by_k))]
pub fn sizes_are_bounded()
    ensures summaries { SummariesAreBounded }
    ensures summaries_by_k { SummariesAreBoundedByK }
    ensures tables { TablesHaveOneSize }
{}
