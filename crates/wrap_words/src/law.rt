ghost use Rattle.wrap_words.specs.Residues.{WordsAreResidues};
ghost use Rattle.wrap_words.specs.declared.kind.Kind.{Kind};

/// Words of a kind are the residues modulo 2^width: each word is the word of its own number, which
/// lies in the range of the kind, and the word of any number has a number that is congruent to it.
pub fn words_are_residues()
    ensures { (k : Kind) → WordsAreResidues k }
{}
