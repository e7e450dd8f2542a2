// Normal lists of types: the definitions, and the laws by which they stand for their types.
#![tactic(auto)]

ghost use Rattle.normal.specs.Laws.{NormalOnce, NormalLawful, NormalMeans, NormalBegins, NormalAgain, PlacesAreTypes, Example};
ghost use Rattle.normal.specs.Laws.{RenamingKeepsList, MutualRenames, OneListIffMutual, OneListRenames};

// What a normal list is and says.
pub fn normal_lists_stand()
    ensures once { NormalOnce }
    ensures lawful { NormalLawful }
    ensures means { NormalMeans }
    ensures begins { NormalBegins }
    ensures again { NormalAgain }
    ensures places { PlacesAreTypes }
    ensures example { Example }
{}

// When types have one normal list.
pub fn renamings_stand()
    ensures renamed { RenamingKeepsList }
    ensures only { MutualRenames }
    ensures alike { OneListIffMutual }
    ensures together { OneListRenames }
{}
