// Places found again by their keys: chains of places whose keys have one number, from the latest place down. They stand in
// lent memories of numbers, in which 0 is no place and k + 1 is the place k.
ghost use Rattle.std.specs.Prelude.{◌≡◌, ◌+◌, ◌<◌, length, slice_index, slice_set};
ghost use Rattle.std.specs.Iterator.{at_most};
ghost use Rattle.walk.specs.Table.{bucket, Falls, Goes};

use types::TypeNode;

// What is left of a chain: 0 at its end, otherwise one more than the next place.
#[derive(Drop)]
pub struct Chain<'a> {
    pub nexts: &'a [u32],
    pub at: u32,
}

impl Iterator for Chain<'_> {
    type Item = u16;

    ghost can_next = { λ s. Falls s.nexts.now s.at };

    ghost next_gives = { λ s r t. Goes s.nexts.now s.at r t.nexts.now t.at };

    ghost remaining = { λ s. at_most s.at };

    fn next(&mut self) -> Option<u16> {
        let place = self.at.checked_sub(1)?;
        self.at = self.nexts[place as usize];
        Some(place as u16)
    }
}

// The number of a key, of as many as there are chains.
fn bucket_of(x: TypeNode, size: usize) -> usize
    requires { 0 < size }
    ensures is { result ≡ bucket size x }
    ensures below { result < size }
{
    (x.kind as usize + x.left as usize * 31 + x.right as usize * 1021) % size
}

// The places whose keys have the number of the key `x`: `heads` has where the chain of a number starts, and `nexts`
// where it goes on from a place.
pub fn chain_of<'a>(heads: &[u32], nexts: &'a [u32], x: TypeNode) -> Chain<'a>
    requires { 0 < length heads.now }
    ensures nexts { result.nexts.now ≡ nexts.now }
    ensures at { result.at ≡ slice_index heads.now (bucket (length heads.now) x) }
{
    Chain {
        nexts,
        at: heads[bucket_of(x, heads.len())],
    }
}

// Enters the next place, by its key `x`.
pub fn enter(heads: &mut [u32], nexts: &mut [u32], place: u32, x: TypeNode)
    requires some { 0 < length heads.old }
    requires within { place < length nexts.old }
    requires few { place < 65536 }
    ensures heads { heads.new ≡ slice_set heads.old (bucket (length heads.old) x) (place + 1) }
    ensures nexts { nexts.new ≡ slice_set nexts.old place (slice_index heads.old (bucket (length heads.old) x)) }
{
    let h = bucket_of(x, heads.len());
    nexts[place as usize] = heads[h];
    heads[h] = place + 1;
}
