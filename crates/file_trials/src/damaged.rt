// A small file, cut at every length, and with a byte changed at every place.
use crate::drafts::number_of;
use std::alloc::{AllocError, Global};
use std::test::Fail;

// tips : hours -> gross, and x : a
const SMALL: [u8; 37] = [
    2, 0, 10, 0, 20, 0, 30, 0, 7, 0, 4, 116, 105, 112, 115, 1, 0, 0, 0, 0, 1, 2, 0, 0, 0, 2, 0, 0,
    1, 0, 1, 120, 0, 0, 0, 0, 0,
];

// The refusals where the lowest bit of a byte is turned, and where the highest is.
const LOWEST: [u16; 37] = [
    92, 91, 92, 92, 92, 92, 92, 92, 92, 92, 93, 0, 0, 0, 0, 0, 0, 94, 94, 94, 0, 0, 94, 94, 94, 94,
    0, 94, 0, 94, 93, 0, 0, 0, 0, 94, 94,
];

const HIGHEST: [u16; 37] = [
    91, 91, 92, 92, 92, 92, 92, 92, 92, 92, 93, 93, 93, 93, 93, 94, 94, 94, 94, 94, 94, 94, 94, 94,
    94, 94, 94, 94, 94, 94, 93, 93, 94, 0, 94, 94, 94,
];

// The small file with bits of one byte turned.
fn turned(heap: Global, at: usize, bits: u8) -> Result<Vec<u8>, AllocError> {
    let mut file = SMALL.to_vec(heap)?;
    if at < file.len() {
        file[at] ^= bits;
    }
    Ok(file)
}

// The refusal of the small file cut to a length.
fn refusal_of_cut(length: usize) -> u16 {
    match length {
        0 | 1 => 90,
        2..10 => 91,
        10..37 => 92,
        _ => 0,
    }
}

#[test]
fn cut_at_every_length(rt: HostRuntime) -> Result<(), Fail> {
    for length in 0..38usize {
        let cut = SMALL.get(0..length).ok_or("longer than the file")?;
        assert_eq!(rt; number_of(cut), refusal_of_cut(length));
    }
    Ok(())
}

#[test]
fn changed_at_every_place(rt: HostRuntime) -> Result<(), Fail> {
    for (at, refusal) in LOWEST.iter().enumerate() {
        assert_eq!(rt; number_of(&turned(rt.alloc(), at, 1)?), *refusal);
    }
    for (at, refusal) in HIGHEST.iter().enumerate() {
        assert_eq!(rt; number_of(&turned(rt.alloc(), at, 128)?), *refusal);
    }
    Ok(())
}
