//! Laws of the definitions. Each function does nothing: its contract is the law.

ghost use Rattle.hh_stream.specs.Laws.{PiecesHaveTheirLengths, PiecesMakeTheWhole};

/// The pieces have the lengths of the cutting, and one after the other they are the list.
pub fn pieces_make_the_whole()
    ensures lengths { PiecesHaveTheirLengths }
    ensures whole { PiecesMakeTheWhole }
{}
