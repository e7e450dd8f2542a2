// Lines of formulas that were filed and refused.
ghost use Rattle.std.specs.Prelude.{◌≤◌, length};

use super::*;
use refusal::Layer;
use std::process::Abort;
use types::is_lawful;

// The first `n` bytes are as expected, and the others untouched.
fn is_line(rt: &impl Abort, out: &[u8], n: usize, expected: &[u8]) {
    assert_eq!(rt; n, expected.len());
    assert!(rt; n <= out.len());
    assert!(rt; &out[0..n] == expected);
    assert!(rt; out[n..].iter().all(|byte| *byte == b'-'));
}

fn files(rt: &impl Abort, number: u16, list: &[TypeNode], expected: &[u8]) {
    let mut out = [b'-'; LINE_ROOM];
    assert!(rt; number < 128);
    assert!(rt; is_lawful(list));
    let n = write_filed(number, list, &mut out);
    is_line(rt, &out, n, expected);
}

fn refuses(rt: &impl Abort, number: u16, place: usize, expected: &[u8]) {
    let mut out = [b'-'; LINE_ROOM];
    let n = write_refused(Refusal::new(number, Layer::Text, place), &mut out);
    is_line(rt, &out, n, expected);
}

#[test]
fn filed_formulas(rt: HostRuntime) {
    files(
        &rt,
        0,
        &[TypeNode::variable(0), TypeNode::arrow(0, 0)],
        b"#0 : a -> a\n",
    );
    files(
        &rt,
        127,
        &[
            TypeNode::variable(0),
            TypeNode::arrow(0, 0),
            TypeNode::arrow(1, 0),
        ],
        b"#127 : (a -> a) -> a\n",
    );
}

// Arrows from the node before to itself, from the second node on. The tests of `printing` and `instance` have it too: in a crate
// of its own, all crates above would rest on what only tests use.
fn double(list: &mut [TypeNode])
    requires { length list.old ≤ 4096 }
{
    for place in 1..list.len() {
        list[place] = TypeNode::arrow(place as u16 - 1, place as u16 - 1);
    }
}

#[test]
fn a_long_type(rt: HostRuntime) {
    let mut list = [TypeNode::variable(0); 13];
    double(&mut list);
    files(&rt, 12, &list, b"#12 : too long\n");
}

#[test]
fn refused_formulas(rt: HostRuntime) {
    refuses(&rt, 0, 0, b"refused 0 at 0\n");
    refuses(&rt, 24, 109, b"refused 24 at 109\n");
    refuses(
        &rt,
        65535,
        18446744073709551615,
        b"refused 65535 at 18446744073709551615\n",
    );
}
