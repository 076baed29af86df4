//! What a reader of policies may rely on, said of every text. Each law is a function that does nothing: its
//! clause is the law.
ghost use Rattle.mfotl_parse.specs.GrammarLaws.{AcceptedExactly, SpelledIsRead, ReadIsSpelled, OneAnswer};
ghost use Rattle.mfotl_parse.specs.GrammarLaws.{SyntaxExactly, SilentAreRead};
ghost use Rattle.mfotl_parse.specs.GrammarLaws.{ExactSyntax, ExactLex, ExactSoundness, EachFaultIsShown};
ghost use Rattle.mfotl_parse.specs.GrammarLaws.{StaysShown, ClashesAgree};
ghost use Rattle.mfotl_parse.specs.Viability.{FirstFaults};

/// Syntax is shown exactly by the token that ends viability, the first fault that is shown stays whatever
/// follows, and no text has two answers.
pub fn first_faults()
    ensures { FirstFaults }
{}

/// The reader comes to its end exactly with what the grammar spells, whatever other rules are broken.
pub fn accepted_exactly()
    ensures { AcceptedExactly }
{}

/// A text that spells a formula and keeps the rules is read, as the formula means.
pub fn spelled_is_read()
    ensures { SpelledIsRead }
{}

/// A policy that is read is spelled, keeps the rules, and is what its formula means.
pub fn read_is_spelled()
    ensures { ReadIsSpelled }
{}

/// A text has exactly one of a value and a first fault.
pub fn one_answer()
    ensures { OneAnswer }
{}

/// Behind tokens that show no fault, a token or the end shows `Syntax` exactly where no formula goes on so.
pub fn syntax_exactly()
    ensures { SyntaxExactly }
{}

/// `Syntax` is a text's first fault exactly where its first token that ends viability stands, or its end.
pub fn exact_syntax()
    ensures { ExactSyntax }
{}

/// A fault of the lexer is the first one exactly where the whole tokens before it show none.
pub fn exact_lex()
    ensures { ExactLex }
{}

/// The reader goes on exactly behind tokens that begin a formula and show no fault.
pub fn silent_are_read()
    ensures { SilentAreRead }
{}

/// Each fault is a text's first one exactly where the grammar says that it is shown.
pub fn each_fault_is_shown()
    ensures { EachFaultIsShown }
{}

/// The reader goes on exactly behind tokens of which none is the cause of a fault.
pub fn exact_soundness()
    ensures { ExactSoundness }
{}

/// What the front of a text shows is shown by the text.
pub fn stays_shown()
    ensures { StaysShown }
{}

/// The table of names that the reader keeps tells a clash of sorts where the places in the text do.
pub fn clashes_agree()
    ensures { ClashesAgree }
{}
