// Instances and what is none, lists that are not normal, and unlawful lists.
ghost use Rattle.std.specs.Prelude.{◌≤◌, length};

use super::*;
use std::process::Abort;

fn instance(rt: &impl Abort, general: &[TypeNode], special: &[TypeNode]) {
    assert_eq!(rt; is_instance(general, special), Ok(true));
}

fn other(rt: &impl Abort, general: &[TypeNode], special: &[TypeNode]) {
    assert_eq!(rt; is_instance(general, special), Ok(false));
}

// Whether the type at a place is an instance, if the lists are as the question wants them.
fn instance_at(general: &[TypeNode], special: &[TypeNode], place: u16) -> Option<bool> {
    if !is_lawful(general) || !is_lawful(special) || !is_once(special) {
        return None;
    }
    if place as usize >= special.len() {
        return None;
    }
    Some(fits(general, special, place))
}

// Arrows from the node before to itself, from the second node on. The tests of `printing` and `lines` have it too: in a crate
// of its own, all crates above would rest on what only tests use.
fn double(list: &mut [TypeNode])
    requires { length list.old ≤ 4096 }
{
    for place in 1..list.len() {
        list[place] = TypeNode::arrow(place as u16 - 1, place as u16 - 1);
    }
}

#[test]
fn leaves(rt: HostRuntime) {
    instance(&rt, &[TypeNode::variable(0)], &[TypeNode::base(3)]);
    instance(&rt, &[TypeNode::variable(0)], &[TypeNode::variable(7)]);
    instance(
        &rt,
        &[TypeNode::variable(4095)],
        &[TypeNode::variable(0), TypeNode::arrow(0, 0)],
    );
    instance(&rt, &[TypeNode::base(3)], &[TypeNode::base(3)]);
    other(&rt, &[TypeNode::base(3)], &[TypeNode::base(4)]);
    other(&rt, &[TypeNode::base(0)], &[TypeNode::variable(0)]);
    other(
        &rt,
        &[TypeNode::base(1)],
        &[TypeNode::variable(0), TypeNode::arrow(0, 0)],
    );
    other(
        &rt,
        &[TypeNode::variable(0), TypeNode::arrow(0, 0)],
        &[TypeNode::base(1)],
    );
    other(
        &rt,
        &[TypeNode::variable(0), TypeNode::arrow(0, 0)],
        &[TypeNode::variable(0)],
    );
}

#[test]
fn arrows(rt: HostRuntime) {
    let same = [TypeNode::variable(0), TypeNode::arrow(0, 0)];
    let two = [
        TypeNode::variable(0),
        TypeNode::variable(1),
        TypeNode::arrow(0, 1),
    ];
    instance(&rt, &two, &same);
    other(&rt, &same, &two);
    instance(
        &rt,
        &two,
        &[
            TypeNode::variable(1),
            TypeNode::variable(0),
            TypeNode::arrow(0, 1),
        ],
    );
    instance(
        &rt,
        &[TypeNode::base(0), TypeNode::base(1), TypeNode::arrow(0, 1)],
        &[TypeNode::base(1), TypeNode::base(0), TypeNode::arrow(1, 0)],
    );
    other(
        &rt,
        &[TypeNode::base(0), TypeNode::base(1), TypeNode::arrow(0, 1)],
        &[TypeNode::base(0), TypeNode::base(2), TypeNode::arrow(0, 1)],
    );
    other(
        &rt,
        &[TypeNode::base(0), TypeNode::base(1), TypeNode::arrow(0, 1)],
        &[TypeNode::base(2), TypeNode::base(1), TypeNode::arrow(0, 1)],
    );
    instance(
        &rt,
        &[
            TypeNode::variable(0),
            TypeNode::variable(1),
            TypeNode::arrow(0, 1),
            TypeNode::arrow(0, 2),
        ],
        &[
            TypeNode::base(0),
            TypeNode::base(1),
            TypeNode::arrow(0, 1),
            TypeNode::arrow(0, 2),
        ],
    );
    other(
        &rt,
        &[
            TypeNode::variable(0),
            TypeNode::variable(1),
            TypeNode::arrow(0, 1),
            TypeNode::arrow(0, 2),
        ],
        &[
            TypeNode::base(0),
            TypeNode::base(1),
            TypeNode::arrow(0, 1),
            TypeNode::arrow(1, 2),
        ],
    );
}

#[test]
fn lists_of_any_form(rt: HostRuntime) {
    let twice = [
        TypeNode::base(0),
        TypeNode::base(1),
        TypeNode::arrow(0, 1),
        TypeNode::base(0),
        TypeNode::base(1),
        TypeNode::arrow(3, 4),
        TypeNode::arrow(2, 5),
    ];
    instance(&rt, &[TypeNode::variable(0), TypeNode::arrow(0, 0)], &twice);
    instance(
        &rt,
        &[
            TypeNode::variable(0),
            TypeNode::variable(0),
            TypeNode::arrow(0, 1),
        ],
        &twice,
    );
    instance(&rt, &twice, &twice);
    other(
        &rt,
        &[
            TypeNode::variable(0),
            TypeNode::variable(0),
            TypeNode::arrow(0, 1),
        ],
        &[TypeNode::base(0), TypeNode::base(1), TypeNode::arrow(0, 1)],
    );
    instance(
        &rt,
        &[
            TypeNode::base(5),
            TypeNode::variable(9),
            TypeNode::variable(3),
            TypeNode::arrow(1, 2),
        ],
        &[
            TypeNode::variable(3),
            TypeNode::base(1),
            TypeNode::base(0),
            TypeNode::arrow(1, 2),
        ],
    );
    instance(
        &rt,
        &[
            TypeNode::variable(0),
            TypeNode::base(5),
            TypeNode::arrow(0, 1),
            TypeNode::variable(0),
            TypeNode::arrow(0, 3),
        ],
        &[TypeNode::base(2), TypeNode::base(3), TypeNode::arrow(0, 0)],
    );
}

#[test]
fn refusals(rt: HostRuntime) {
    assert_eq!(rt; is_instance(&[], &[]), Err(InstanceFault::UnlawfulGeneral));
    assert_eq!(rt;
        is_instance(&[TypeNode::arrow(0, 0)], &[TypeNode::variable(0)]),
        Err(InstanceFault::UnlawfulGeneral)
    );
    assert_eq!(rt;
        is_instance(&[TypeNode::variable(0)], &[]),
        Err(InstanceFault::UnlawfulSpecial)
    );
    assert_eq!(rt;
        is_instance(&[TypeNode::variable(0)], &[TypeNode::base(6)]),
        Err(InstanceFault::UnlawfulSpecial)
    );
}

#[test]
fn places(rt: HostRuntime) {
    let list = [
        TypeNode::base(0),
        TypeNode::base(1),
        TypeNode::arrow(0, 1),
        TypeNode::arrow(2, 2),
    ];
    let same = [TypeNode::variable(5), TypeNode::arrow(0, 0)];
    assert!(rt; is_once(&list));
    assert!(rt; !is_once(&[TypeNode::base(0), TypeNode::base(1), TypeNode::base(0)]));
    assert_eq!(rt; instance_at(&same, &list, 3), Some(true));
    assert_eq!(rt; instance_at(&same, &list, 2), Some(false));
    assert_eq!(rt; instance_at(&same, &list, 0), Some(false));
    assert_eq!(rt; instance_at(&same[0..1], &list, 0), Some(true));
}

#[test]
fn longest(rt: HostRuntime) {
    let mut doubled = [TypeNode::variable(0); 4096];
    double(&mut doubled);
    instance(&rt, &doubled, &doubled);
    other(
        &rt,
        &doubled,
        &[
            TypeNode::variable(0),
            TypeNode::variable(1),
            TypeNode::arrow(0, 1),
        ],
    );
}
