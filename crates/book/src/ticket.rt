// Tickets for open candidates.
ghost use Rattle.std.specs.Prelude.{◌≡◌, true, false};

// A ticket is handed out for a candidate and has to be spent: it may be let go only then. It holds the number under which
// the candidate would be filed, and does not know its book. By `spent` the prover sees to it that none lapses: of a type
// without `drop` only the compiler would.
pub struct Ticket {
    pub(crate) number: u16,
    pub(crate) spent: bool,
}

impl Drop for Ticket {
    fn drop(self)
        requires { self.spent ≡ true }
    {
        let Ticket {
            number: _,
            spent: _,
        } = self;
    }
}

impl Ticket {
    pub(crate) fn new(number: u16) -> Ticket
        ensures { result ≡ record { number = number; spent = false } }
    {
        Ticket {
            number,
            spent: false,
        }
    }

    // Spends the ticket, and answers its number.
    pub(crate) fn spend(mut self) -> u16
        ensures { result ≡ self.number }
    {
        self.spent = true;
        self.number
    }

    // The number under which the candidate would be filed in the book that gave the ticket.
    pub fn number(&self) -> u16
        ensures { result ≡ self.now.number }
    {
        self.number
    }
}
