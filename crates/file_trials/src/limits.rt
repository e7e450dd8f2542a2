// Files at the limits of what is accepted, and right behind them.
use crate::drafts::{Draft, fault_of};
use catalogue::interface::Catalogue;
use catalogue_file::fault::FileFault;
use catalogue_file::opening::open_file;
use std::alloc::{AllocError, Global};
use std::process::Abort;
use std::test::Fail;
use types::TypeNode;

// A file of so many entries with names of two letters, each of the type hours.
fn many(heap: Global, count: u16) -> Result<Vec<u8>, AllocError> {
    let mut draft = Draft::new(heap);
    for k in 0..count {
        let name = [97 + (k / 25 % 25) as u8, 97 + (k % 25) as u8];
        draft.add(&name, &[TypeNode::base(0)])?;
    }
    draft.file(heap)
}

// The answer to a file of two entries, the second with this name and these nodes.
fn second(
    rt: &(impl Abort + AllocGlobal),
    name: &[u8],
    nodes: &[TypeNode],
    answer: Option<FileFault>,
) -> Result<(), Fail> {
    let mut draft = Draft::new(rt.alloc());
    draft.add(b"first", &[TypeNode::base(0)])?;
    draft.add(name, nodes)?;
    assert_eq!(rt; draft.fault(rt.alloc())?, answer);
    Ok(())
}

// A file of one entry that is refused for its form.
fn broken(rt: &(impl Abort + AllocGlobal), entry: &[u8]) -> Result<(), Fail> {
    let mut draft = Draft::new(rt.alloc());
    draft.add_bytes(entry)?;
    assert_eq!(rt; draft.fault(rt.alloc())?, Some(FileFault::Malformed(0)));
    Ok(())
}

// A file of so many entries, and its answer.
fn counted(
    rt: &(impl Abort + AllocGlobal),
    count: u16,
    answer: Option<FileFault>,
    entries: u16,
) -> Result<(), Fail> {
    let file = many(rt.alloc(), count)?;
    assert_eq!(rt; fault_of(&file), answer);
    assert_eq!(rt; count_of(&file), entries);
    Ok(())
}

fn count_of(bytes: &[u8]) -> u16 {
    open_file(bytes).catalogue.count()
}

#[test]
fn counts(rt: HostRuntime) -> Result<(), Fail> {
    assert_eq!(rt; fault_of(&[0, 0, 0]), Some(FileFault::Gap));
    counted(&rt, 0, None, 0)?;
    counted(&rt, 1, None, 1)?;
    counted(&rt, 256, None, 256)?;
    counted(&rt, 257, Some(FileFault::Count), 0)
}

#[test]
fn lengths(rt: HostRuntime) -> Result<(), Fail> {
    let zeros = vec![in rt.alloc(); 0u8; 65536]?;
    assert_eq!(rt; fault_of(&zeros), Some(FileFault::Length));
    assert_eq!(rt;
        fault_of(zeros.get(0..65535).unwrap_or(&[])),
        Some(FileFault::Gap)
    );
    Ok(())
}

#[test]
fn places(rt: HostRuntime) -> Result<(), Fail> {
    let mut file = many(rt.alloc(), 2)?;
    assert_eq!(rt; fault_of(&file), None);
    assert!(rt; file.len() > 6);
    // the second entry over the first
    file[6] = 10;
    assert_eq!(rt; fault_of(&file), Some(FileFault::Gap));
    // the second entry before the first
    file[2] = 18;
    assert_eq!(rt; fault_of(&file), Some(FileFault::Gap));
    Ok(())
}

#[test]
fn names(rt: HostRuntime) -> Result<(), Fail> {
    let hours = [TypeNode::base(0)];
    let letters = [b'a'; 32];
    let malformed = Some(FileFault::Malformed(1));
    second(&rt, &letters[0..31], &hours, None)?;
    second(&rt, &letters, &hours, malformed)?;
    second(&rt, b"", &hours, malformed)?;
    second(&rt, b"0a", &hours, malformed)?;
    second(&rt, b"a-b", &hours, malformed)?;
    second(&rt, b"first", &hours, Some(FileFault::Repeated(1)))
}

#[test]
fn nodes(rt: HostRuntime) -> Result<(), Fail> {
    let hours = [TypeNode::base(0); 65];
    let malformed = Some(FileFault::Malformed(1));
    let unlawful = Some(FileFault::Unlawful(1));
    second(&rt, b"x", &hours[0..64], None)?;
    second(&rt, b"x", &hours, malformed)?;
    second(&rt, b"x", &[], malformed)?;
    second(
        &rt,
        b"x",
        &[TypeNode::arrow(1, 0), TypeNode::base(0)],
        unlawful,
    )?;
    second(&rt, b"x", &[TypeNode::base(6)], unlawful)
}

// No bytes, a name that is longer than its entry, and four bytes over.
#[test]
fn broken_entries(rt: HostRuntime) -> Result<(), Fail> {
    broken(&rt, b"")?;
    broken(&rt, b"\x08x\x01\x00\x00\x00\x00")?;
    broken(&rt, b"\x01x\x01\x00\x00\x00\x00\x01\x00\x00\x00")
}

// A repeated name, then unlawful nodes behind it, then an entry that is no name and nodes behind these.
#[test]
fn questions_in_order(rt: HostRuntime) -> Result<(), Fail> {
    let heap = rt.alloc();
    let hours = [TypeNode::base(0)];
    let mut draft = Draft::new(heap);
    draft.add(b"x", &hours)?;
    draft.add(b"x", &hours)?;
    assert_eq!(rt; draft.fault(heap)?, Some(FileFault::Repeated(1)));
    // No constructor makes a node of such a kind.
    let unknown = TypeNode {
        kind: 3,
        left: 0,
        right: 0,
    };
    draft.add(b"y", &[unknown])?;
    assert_eq!(rt; draft.fault(heap)?, Some(FileFault::Unlawful(2)));
    draft.add(b"Z", &hours)?;
    assert_eq!(rt; draft.fault(heap)?, Some(FileFault::Malformed(3)));
    Ok(())
}
