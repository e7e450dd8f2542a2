// The built-in table as a file: the same answers to every question.
use crate::drafts::Draft;
use catalogue::builtin::Builtin;
use catalogue::interface::Catalogue;
use catalogue_file::opening::open_file;
use std::alloc::{AllocError, Global};
use std::process::Abort;
use std::test::Fail;
use types::TypeNode;

// The list of entry k of the built-in catalogue.
fn list_of(heap: Global, k: u16) -> Result<Vec<TypeNode>, AllocError> {
    (0..Builtin.nodes(k))
        .map(|i| Builtin.node(k, i))
        .collect(heap)
}

// The built-in catalogue as a file.
fn written(heap: Global) -> Result<Vec<u8>, AllocError> {
    let mut draft = Draft::new(heap);
    for k in 0..Builtin.count() {
        draft.add(Builtin.name(k), &list_of(heap, k)?)?;
    }
    draft.file(heap)
}

// Entry k has as many nodes in both catalogues, and the same ones, the first behind them too.
fn same_list<A: Catalogue, B: Catalogue>(rt: &impl Abort, a: &A, b: &B, k: u16) {
    assert_eq!(rt; a.nodes(k), b.nodes(k));
    for i in 0..=a.nodes(k) {
        assert_eq!(rt; a.node(k, i), b.node(k, i));
    }
}

#[test]
fn answers_as_the_table(rt: HostRuntime) -> Result<(), Fail> {
    let file = written(rt.alloc())?;
    let opened = open_file(&file);
    assert_eq!(rt; opened.fault, None);
    let catalogue = opened.catalogue;
    assert_eq!(rt; catalogue.count(), Builtin.count());
    for k in 0..=Builtin.count() {
        assert!(rt; catalogue.name(k) == Builtin.name(k));
        assert_eq!(rt;
            catalogue.find(Builtin.name(k)),
            Builtin.find(Builtin.name(k))
        );
        same_list(&rt, &catalogue, &Builtin, k);
    }
    assert_eq!(rt; catalogue.find(b"none"), None);
    Ok(())
}
