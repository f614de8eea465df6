//! Verdicts on certificates as `check_text` tells them.
use crate::asserting::same;
use crate::calling::{Came, output};
use crate::certificates::{AS_IT_IS, Change, DELETING, changed};
use ed_calls::{Aside, check_text};
use std::alloc::{AllocError, Global};
use std::process::Abort;

struct Row {
    script: &'static [u8],
    change: Change,
    refused_write: u64,
    status: u8,
    output: &'static [u8],
}

const ACCEPTED: Row = Row {
    script: DELETING,
    change: AS_IT_IS,
    refused_write: 0,
    status: 0,
    output: b"accepted\n",
};

const REFUSED: Row = Row {
    status: 1,
    ..ACCEPTED
};

#[rattlefmt::skip]
static JUDGED: [Row; 6] = [
    ACCEPTED,
    Row { script: b"1d\nw\n", output: b"refused: command 0\n", ..REFUSED },
    Row { script: b"2d\nw\nq\n", output: b"refused: command 1\n", ..REFUSED },
    Row { change: Change { old: "zone 0-.", new: "zone 0-0<=-1 0-." }, output: b"refused: command 1\n", ..REFUSED },
    Row { change: Change { old: "final 0 2", new: "final 0 1" }, output: b"refused: command 4\n", ..REFUSED },
    Row { refused_write: 1, status: 3, output: b"", ..ACCEPTED },
];

#[rattlefmt::skip]
static UNREAD: [Row; 5] = [
    Row { change: Change { old: "ed-certificate 1", new: "1d" }, output: b"certificate: version\n", ..REFUSED },
    Row { change: Change { old: "start 1 3", new: "start 3 1" }, output: b"certificate: line 3\n", ..REFUSED },
    Row { change: Change { old: "final 0 2", new: "final 00 2" }, output: b"certificate: line 42\n", ..REFUSED },
    Row { change: Change { old: "writes =F\n", new: "" }, output: b"certificate: size\n", ..REFUSED },
    Row { change: Change { old: "writes =F\n", new: "writes =F\n\n" }, output: b"certificate: size\n", ..REFUSED },
];

fn told(alloc: Global, row: &Row) -> Result<Came, AllocError> {
    let certificate = changed(alloc, row.change)?;
    let certificate = certificate.as_slice();
    let mut sink = output(alloc, row.refused_write)?;
    let mut aside = Aside::new(alloc, row.script, b"CERT");
    let status = check_text(alloc, row.script, certificate, &mut sink, &mut aside);
    Ok(Came { status, sink })
}

fn check_each(rt: &impl Abort, alloc: Global, rows: &[Row]) {
    for row in rows {
        let came = told(alloc, row).expect(rt, "memory");
        let at = (row.script, row.change.new);
        same(rt, came.status, row.status, at);
        same(rt, came.sink.taken(), row.output, at);
    }
}

#[test]
fn a_certificate_is_judged(rt: HostRuntime) {
    check_each(&rt, rt.alloc(), &JUDGED);
}

#[test]
fn what_is_no_certificate_is_told_apart(rt: HostRuntime) {
    check_each(&rt, rt.alloc(), &UNREAD);
}
