// When two names are one name.
ghost use Rattle.std.specs.Prelude.{Decides};
ghost use Rattle.catalogue.specs.Names.{Same};

pub fn same_name(a: &[u8], b: &[u8]) -> bool
    ensures { Decides result (Same a.now b.now) }
{
    a == b
}
