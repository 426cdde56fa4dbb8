//! Laws of the definitions. Each function does nothing: its contract is the law.

ghost use Rattle.hh_seals.specs.Laws.{OpensSealedTexts, SealedTextsHaveOneValue};
ghost use Rattle.hh_seals.specs.Laws.{ValuesHaveOneSealedText, OthersOfOneDigestCollide};
ghost use Rattle.hh_seals.specs.Laws.{OneDigestFits};

/// What is opened is exactly the sealed texts.
pub fn sealed_texts_are_opened()
    ensures { OpensSealedTexts }
{}

/// A sealed text has one value, with its decimals, and a value with its decimals one sealed text.
pub fn sealed_texts_are_unique()
    ensures value { SealedTextsHaveOneValue }
    ensures text { ValuesHaveOneSealedText }
{}

/// If two sealed texts have one digest and other contents, two texts have one SHA-256. No other
/// digest fits a content.
pub fn changes_are_found()
    ensures content { OthersOfOneDigestCollide }
    ensures digest { OneDigestFits }
{}
