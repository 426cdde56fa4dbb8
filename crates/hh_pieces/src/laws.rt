//! Laws of the definitions in `specs/`. Each function does nothing: its contract is the law.

ghost use Rattle.hh_pieces.specs.Laws.{FeedsOutsideQuotesAreCuts, PiecesAreRead, PiecesHaveTheRecords, UnquotedTextsAreSplit};

/// The records of a text that is cut before line feeds outside quotes are those of its pieces.
pub fn pieces_have_the_records()
    ensures { PiecesHaveTheRecords }
{}

/// Pieces that end outside quotes, each but the first beginning with a line feed, are cut lawfully.
pub fn feeds_outside_quotes_are_cuts()
    ensures { FeedsOutsideQuotesAreCuts }
{}

/// Texts whose pieces are each read by themselves, where the totals fit, read as the items of the
/// pieces, one after the other.
pub fn pieces_are_read()
    ensures { PiecesAreRead }
{}

/// The records of a text without quotes, or of one where a quote is a byte as any other, are its
/// lines, but for blank ones, and their fields are what stands between separators.
pub fn unquoted_texts_are_split()
    ensures { UnquotedTextsAreSplit }
{}
