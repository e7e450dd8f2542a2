// The laws of reading: a text has one term at most, and one refusal at most.
#![tactic(auto)]

ghost use Rattle.reading_laws.specs.Laws.{FormulaIsOne, RefusalIsOne, RefusedOrRead, FormulaIsClosed, ReferencesAreBelow};

// What a text is read as, and why it is not, is fixed by the text.
pub fn readings_stand()
    ensures formula { FormulaIsOne }
    ensures refusal { RefusalIsOne }
    ensures either { RefusedOrRead }
    ensures closed { FormulaIsClosed }
    ensures below { ReferencesAreBelow }
{}
