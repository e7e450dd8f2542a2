// The laws of ledgers fed by calls, on which the promises about whole runs of a book rest.
#![tactic(auto)]

ghost use Rattle.ledger.specs.Fed.{LedgersAreRight, LedgerIsOne};

// Every ledger that calls have fed keeps principal types only, and each of the calls that asked for a type was refused for
// want of one exactly when there is none. Two ledgers fed alike are equal, and so were the replies.
pub fn ledgers_stand()
    ensures right { LedgersAreRight }
    ensures one { LedgerIsOne }
{}
