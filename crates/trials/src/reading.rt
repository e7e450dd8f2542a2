// What the reader leaves in the term memory.
use catalogue::builtin::Builtin;
use formula::reader::read;
use refusal::Refusal;
use term::Symbol::{self, Abstraction, Application, Primitive, Reference, Variable};
use term::TermNode;

// A memory that is not clear.
fn scribbled() -> [TermNode; 12] {
    [TermNode { kind: 9, number: 9 }; 12]
}

// The nodes of a term, and zeros behind them.
fn written<const N: usize>(symbols: [Symbol; N]) -> [TermNode; 12] {
    let mut memory = [TermNode::default(); 12];
    for (node, symbol) in memory.iter_mut().zip(symbols.iter()) {
        *node = TermNode::from(*symbol);
    }
    memory
}

// Reads a text while three formulas are filed.
fn outcome(text: &[u8], memory: &mut [TermNode]) -> Result<usize, (u16, usize)> {
    read(&Builtin, 3, text, memory).map_err(|fault| {
        let Refusal { number, place, .. } = Refusal::from(fault);
        (number, place)
    })
}

#[test]
fn composition(rt: HostRuntime) {
    let mut memory = scribbled();
    assert_eq!(rt; outcome(b"\\f.\\g.\\x.f (g x)", &mut memory), Ok(8));
    let term = written([
        Abstraction,
        Abstraction,
        Abstraction,
        Application,
        Variable(2),
        Application,
        Variable(1),
        Variable(0),
    ]);
    assert_eq!(rt; memory, term);
}

#[test]
fn grouped_to_the_left(rt: HostRuntime) {
    let mut memory = scribbled();
    assert_eq!(rt;
        outcome(b"choose #2 (\\net_of.net_of) net_of", &mut memory),
        Ok(8)
    );
    let term = written([
        Application,
        Application,
        Application,
        Primitive(5),
        Reference(2),
        Abstraction,
        Variable(0),
        Primitive(2),
    ]);
    assert_eq!(rt; memory, term);
}

#[test]
fn refusals_leave_zeros(rt: HostRuntime) {
    let zeros = [TermNode::default(); 12];
    let mut memory = scribbled();
    assert_eq!(rt; outcome(b"x %", &mut memory), Err((20, 2)));
    assert_eq!(rt; memory, zeros);
    memory = scribbled();
    assert_eq!(rt; outcome(b"x \\y.y", &mut memory), Err((21, 2)));
    assert_eq!(rt; memory, zeros);
    memory = scribbled();
    assert_eq!(rt; outcome(b"\\x.x x x x x x x", &mut memory), Err((23, 0)));
    assert_eq!(rt; memory, zeros);
    memory = scribbled();
    assert_eq!(rt; outcome(b"#7", &mut memory), Err((25, 0)));
    assert_eq!(rt; memory, zeros);
    memory = scribbled();
    assert_eq!(rt; outcome(b"#7 (\\x.y x)", &mut memory), Err((24, 7)));
    assert_eq!(rt; memory, zeros);
}

#[test]
fn room_to_the_last_record(rt: HostRuntime) {
    let mut memory = scribbled();
    assert_eq!(rt; outcome(b"\\x.x x x x x x", &mut memory), Ok(12));
    let mut none = [TermNode::default(); 0];
    assert_eq!(rt; outcome(b"std_hours", &mut none), Err((23, 0)));
}

#[test]
fn names_without_room(rt: HostRuntime) {
    let mut memory = scribbled();
    assert_eq!(rt; outcome(b"\\x.x x x x x y", &mut memory), Err((24, 13)));
    assert_eq!(rt; outcome(b"\\x.x x x x x x y", &mut memory), Err((23, 0)));
    assert_eq!(rt; outcome(b"\\x.y x x x x x x", &mut memory), Err((23, 0)));
    assert_eq!(rt; outcome(b"\\x.x x x x x x y)", &mut memory), Err((21, 16)));
}
