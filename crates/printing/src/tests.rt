// What is printed, at the limits of length and of room too.
ghost use Rattle.std.specs.Prelude.{◌≤◌, length};

use super::*;
use std::process::Abort;
use std::test::Fail;

// The list prints as expected, into a memory and as a text, and no byte beyond is touched.
fn prints(rt: &impl Abort, list: &[TypeNode], expected: &[u8]) -> Result<(), Fail> {
    let mut out = [b'#'; 40];
    let n = show(list, &mut out)?;
    assert_eq!(rt; n, expected.len());
    assert!(rt; n < 40);
    assert!(rt; &out[0..n] == expected);
    assert!(rt; out[n..].iter().all(|byte| *byte == b'#'));
    let text = text_of(list)?;
    assert!(rt; text.as_str().as_bytes() == expected);
    Ok(())
}

// Arrows from the first node to the one before, from the third node on.
fn chain(list: &mut [TypeNode])
    requires { length list.old ≤ 4096 }
{
    for place in 2..list.len() {
        list[place] = TypeNode::arrow(0, place as u16 - 1);
    }
}

// Arrows from the node before to itself, from the second node on. The tests of `lines` and `instance` have it too: in a crate
// of its own, all crates above would rest on what only tests use.
fn double(list: &mut [TypeNode])
    requires { length list.old ≤ 4096 }
{
    for place in 1..list.len() {
        list[place] = TypeNode::arrow(place as u16 - 1, place as u16 - 1);
    }
}

#[test]
fn leaves(rt: HostRuntime) -> Result<(), Fail> {
    prints(&rt, &[TypeNode::base(0)], b"hours")?;
    prints(&rt, &[TypeNode::base(1)], b"rate")?;
    prints(&rt, &[TypeNode::base(2)], b"gross")?;
    prints(&rt, &[TypeNode::base(3)], b"net")?;
    prints(&rt, &[TypeNode::base(4)], b"paid")?;
    prints(&rt, &[TypeNode::base(5)], b"flag")?;
    prints(&rt, &[TypeNode::variable(0)], b"a")?;
    prints(&rt, &[TypeNode::variable(25)], b"z")?;
    prints(&rt, &[TypeNode::variable(26)], b"a1")?;
    prints(&rt, &[TypeNode::variable(51)], b"z1")?;
    prints(&rt, &[TypeNode::variable(52)], b"a2")?;
    prints(&rt, &[TypeNode::variable(260)], b"a10")?;
    prints(&rt, &[TypeNode::variable(2600)], b"a100")?;
    prints(&rt, &[TypeNode::variable(4095)], b"n157")
}

#[test]
fn arrows(rt: HostRuntime) -> Result<(), Fail> {
    let list = [
        TypeNode::variable(0),
        TypeNode::variable(1),
        TypeNode::arrow(0, 1),
        TypeNode::variable(2),
        TypeNode::arrow(3, 0),
        TypeNode::arrow(3, 1),
        TypeNode::arrow(4, 5),
        TypeNode::arrow(2, 6),
    ];
    prints(&rt, &list, b"(a -> b) -> (c -> a) -> c -> b")?;
    prints(&rt, &list[0..3], b"a -> b")?;
    prints(
        &rt,
        &[
            TypeNode::base(0),
            TypeNode::base(2),
            TypeNode::arrow(0, 1),
            TypeNode::arrow(2, 1),
        ],
        b"(hours -> gross) -> gross",
    )?;
    prints(
        &rt,
        &[
            TypeNode::base(0),
            TypeNode::base(2),
            TypeNode::arrow(0, 1),
            TypeNode::arrow(0, 2),
        ],
        b"hours -> hours -> gross",
    )
}

#[test]
fn refusals(rt: HostRuntime) {
    let mut out = [b'#'; 6];
    assert_eq!(rt; show(&[], &mut out), Err(ShowFault::Unlawful));
    assert_eq!(rt;
        show(&[TypeNode::arrow(0, 0)], &mut out),
        Err(ShowFault::Unlawful)
    );
    assert_eq!(rt;
        show(&[TypeNode::base(6)], &mut out),
        Err(ShowFault::Unlawful)
    );
    assert_eq!(rt;
        show(
            &[TypeNode::variable(0), TypeNode::arrow(0, 0)],
            &mut out[0..5]
        ),
        Err(ShowFault::TooLong)
    );
    assert!(rt; out == *b"######");
    assert_eq!(rt;
        show(&[TypeNode::variable(0), TypeNode::arrow(0, 0)], &mut out),
        Ok(6)
    );
    assert!(rt; out == *b"a -> a");
}

#[test]
fn longest(rt: HostRuntime) {
    let mut out = [b'#'; 4200];
    let mut list = [TypeNode::base(0); 820];
    list[0] = TypeNode::variable(0);
    chain(&mut list);
    assert_eq!(rt; show(&list, &mut out), Ok(4095));
    let mut list = [TypeNode::variable(0); 821];
    chain(&mut list);
    assert_eq!(rt; show(&list, &mut out), Ok(4096));
    let mut short = [b'#'; 4095];
    assert_eq!(rt; show(&list, &mut short), Err(ShowFault::TooLong));
}

#[test]
fn too_long(rt: HostRuntime) {
    let mut out = [b'#'; 4200];
    let mut list = [TypeNode::variable(26); 821];
    list[0] = TypeNode::variable(0);
    chain(&mut list);
    assert_eq!(rt; show(&list, &mut out), Err(ShowFault::TooLong));
    let mut list = [TypeNode::variable(0); 4096];
    double(&mut list);
    assert_eq!(rt; show(&list, &mut out), Err(ShowFault::TooLong));
}
