// The laws of types, expansions and principal types, on which the promises about filed formulas rest.
#![tactic(auto)]

ghost use Rattle.theory.specs.Laws.{TypingsGiveTypes, TypedIsClosed, TypedIsWhole, TypesHaveInstances, OuterBindersIdle, LaterRowsIdle};
ghost use Rattle.theory.specs.Laws.{ExpansionsClosed, ExpansionsWhole, ExpansionsLast};
ghost use Rattle.theory.specs.Laws.{TypesOfRows, TypesOfExpansions, PrincipalOfExpansions, TypelessExpansions, KeptGrows, KeptShrinks};
ghost use Rattle.theory.specs.Laws.{PrincipalIsOne, PrincipalRenamed, PrincipalIsProper, PrincipalIsSimple, NormalIsPrincipal, NormalIsKept};

// What types of terms depend on.
pub fn types_stand()
    ensures typings { TypingsGiveTypes }
    ensures closed { TypedIsClosed }
    ensures whole { TypedIsWhole }
    ensures instances { TypesHaveInstances }
    ensures binders { OuterBindersIdle }
    ensures rows { LaterRowsIdle }
{}

// Expansions are closed and without references, and stay when rows are added.
pub fn expansions_stand()
    ensures closed { ExpansionsClosed }
    ensures whole { ExpansionsWhole }
    ensures last { ExpansionsLast }
{}

// Kept types stand for the expansions of their rows.
pub fn types_of_expansions_stand()
    ensures rows { TypesOfRows }
    ensures types { TypesOfExpansions }
    ensures principal { PrincipalOfExpansions }
    ensures typeless { TypelessExpansions }
    ensures grows { KeptGrows }
    ensures shrinks { KeptShrinks }
{}

// A term has one principal type up to the numbers of its variables, and its normal list may be kept.
pub fn principal_types_stand()
    ensures one { PrincipalIsOne }
    ensures renamed { PrincipalRenamed }
    ensures proper { PrincipalIsProper }
    ensures simple { PrincipalIsSimple }
    ensures normal { NormalIsPrincipal }
    ensures kept { NormalIsKept }
{}
