//! The laws of the grammar. Each function does nothing, and its contract is the law.
ghost use Rattle.kernel_grammar.specs.Laws.{BareFirst, DoublingIsAFile, LinesHoldNoEnds, ListedFirst, ListsAreCompared, LoneWordsAreNames, NamesAreCompared, NumbersMultiply, OptionsAreRead, RulesHaveParameters, ShapesAreNumbers, ShiftsAreLoose, SumsGroupToTheLeft, TwoListedFirst, ValueFirst, WordsInSignsAreNames};

/// How tightly operators bind.
pub fn operators_bind()
    ensures shifts { ShiftsAreLoose }
    ensures sums { SumsGroupToTheLeft }
    ensures comparisons { NamesAreCompared }
    ensures products { NumbersMultiply }
{}

/// What may stand in the first place of `min` and `max`.
pub fn first_places()
    ensures bare { BareFirst }
    ensures listed { ListedFirst }
    ensures two { TwoListedFirst }
    ensures value { ValueFirst }
{}

/// An expression that is one word, bare or between two signs, is that name.
pub fn lone_words()
    ensures bare { LoneWordsAreNames }
    ensures signs { WordsInSignsAreNames }
{}

/// No line end stands inside a line.
pub fn lines_are_whole()
    ensures { LinesHoldNoEnds }
{}

/// Lines of four forms.
pub fn lines_of_four_forms()
    ensures assume { ListsAreCompared }
    ensures temp { ShapesAreNumbers }
    ensures rule { RulesHaveParameters }
    ensures insn { OptionsAreRead }
{}

/// The smallest kernel, `out[i] = 2*a[i]`, is a file.
pub fn a_small_kernel_is_a_file()
    ensures { DoublingIsAFile }
{}
