//! Sessions that are asked for their steps one by one.
use crate::asserting::same;
use crate::driving::{Case, UNREFUSED, session};
use ed_base::{Bytes, Fault, Pieces};
use ed_session::{Ask, Session};
use ed_syntax::{Answer, Ending};
use line_store::PlainStore;
use std::alloc::Global;
use std::process::Abort;

fn output(rt: &impl Abort, alloc: Global, bytes: &[u8]) -> Ask {
    let bytes = Bytes::from_slice(alloc, bytes).expect(rt, "memory");
    Ask::Output(Pieces::from_bytes(alloc, bytes))
}

fn check_step(rt: &impl Abort, session: &mut Session<PlainStore>, ask: Ask) {
    assert!(rt; session.started() && !session.waits());
    same(rt, session.step(), ask, "a step");
}

#[test]
fn a_session_without_a_path_is_stepped_to_its_end(rt: HostRuntime) {
    let case = Case {
        script: b"a\nx\n.\np\nx\n",
        edited: None,
        ..UNREFUSED
    };
    let mut session = session(rt.alloc(), case).expect(&rt, "memory");
    assert!(rt; !session.started());
    session.start(Answer::Refused);
    check_step(&rt, &mut session, output(&rt, rt.alloc(), b"x\n"));
    check_step(&rt, &mut session, output(&rt, rt.alloc(), b"?\n"));
    for _ in 0..2 {
        check_step(&rt, &mut session, Ask::Ended(Err(Fault::Syntax)));
        session.fail_output();
    }
    drop(session);
}

/// A step gives this output, and then so many commands are left of a list.
fn check_listed(
    rt: &impl Abort,
    alloc: Global,
    session: &mut Session<PlainStore>,
    bytes: &[u8],
    left: usize,
) {
    check_step(rt, session, output(rt, alloc, bytes));
    assert!(rt; session.in_list());
    same(
        rt,
        (session.left_in_list(), session.left()),
        (left, 1),
        bytes,
    );
}

// What the three commands of a list give for two lines, and how many of them are left after each. Without an address `=` gives the
// number of the last line.
#[rattlefmt::skip]
static LISTED: [(&[u8], usize); 6] = [
    (b"x\n", 2), (b"2\n", 1), (b"1\tx\n", 0),
    (b"y\n", 2), (b"2\n", 1), (b"2\ty\n", 0),
];

#[test]
fn the_commands_left_of_a_list_are_counted(rt: HostRuntime) {
    let case = Case {
        script: b"a\nx\ny\n.\ng/./p\\\n=\\\nn\nQ\n",
        edited: None,
        ..UNREFUSED
    };
    let mut session = session(rt.alloc(), case).expect(&rt, "memory");
    assert!(rt; !session.started() && !session.in_list());
    session.start(Answer::Missing);
    for (bytes, left) in &LISTED {
        check_listed(&rt, rt.alloc(), &mut session, bytes, *left);
    }
    check_step(&rt, &mut session, Ask::Ended(Ok(Ending { lines: 2 })));
    assert!(rt; !session.in_list());
    same(&rt, session.left_in_list(), 0, "the end");
    drop(session);
}

/// The second of three commands is at fault: it is left, and so is the third.
#[test]
fn a_command_at_fault_is_left_in_its_list(rt: HostRuntime) {
    let case = Case {
        script: b"a\nx\n.\ng/./p\\\n9p\\\np\nQ\n",
        edited: None,
        ..UNREFUSED
    };
    let mut session = session(rt.alloc(), case).expect(&rt, "memory");
    assert!(rt; !session.started());
    session.start(Answer::Missing);
    check_listed(&rt, rt.alloc(), &mut session, b"x\n", 2);
    check_listed(&rt, rt.alloc(), &mut session, b"?\n", 2);
    check_step(&rt, &mut session, Ask::Ended(Err(Fault::Address)));
    same(&rt, session.left_in_list(), 2, "the end");
    drop(session);
}
