//! The laws of texts of tokens. Each function does nothing, and its contract is the law.
ghost use Rattle.text_reader.specs.Laws.{HasFewTokens, HasOneList, HasSpelledTokens};

/// A text has one list of tokens.
pub fn one_list()
    ensures { HasOneList }
{}

/// The bytes of each token are a word, digits, a sign, or a line feed or nothing, as its class says.
pub fn spelled_tokens()
    ensures { HasSpelledTokens }
{}

/// A text has at most one token more than bytes.
pub fn few_tokens()
    ensures { HasFewTokens }
{}
