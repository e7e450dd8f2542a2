// Formulas worked through, as one statement about the definitions of terms, types and needs.
#![tactic(auto)]

ghost use Rattle.formulas.specs.Worked.{WorkedFormulas};

// What the nodes, the needs and the types of eight formulas are.
pub fn worked_formulas_stand()
    ensures { WorkedFormulas }
{}
