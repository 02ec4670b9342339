//! What holds of every text.

ghost use Rattle.ss_lex.specs.Laws.{OneList, OneAnswer};

/// A text has one list of tokens at most.
pub fn one_list()
    ensures { OneList }
{}

/// A text has a list of tokens or a refusal, never both, and one refusal at most.
pub fn one_answer()
    ensures { OneAnswer }
{}
