//! Runs of `s`: what they write and how they end, as the standard says, and that a run that is out of memory says so.
use crate::driving::{Row, check_each, check_memory};
use ed_base::Fault;

const CROSSES: Option<&[u8]> = Some(b"aXbXc\n");

// XCU ed, "Substitute Command": which matches are replaced, and by what.
#[rattlefmt::skip]
static MATCHES: [Row; 18] = [
    Row { script: b"s/\\(ab*\\)\\1/<&>/p\nQ\n", file: Some(b"abbabbb\n"), output: b"<abbabb>b\n", ends: Ok(1) },
    Row { script: b"s/\\(a*\\)*/[\\1]/p\nQ\n", file: Some(b"bc\n"), output: b"[]bc\n", ends: Ok(1) },
    Row { script: b"s/\\(b\\)\\(x\\)*/[\\2]/p\nQ\n", file: Some(b"ab\n"), output: b"a[]\n", ends: Ok(1) },
    Row { script: b"s/x*/-/g\np\nQ\n", file: Some(b"abc\n"), output: b"-a-b-c-\n", ends: Ok(1) },
    Row { script: b"s/x*/-/g\np\nQ\n", file: Some(b"baxc\n"), output: b"-b-a-c-\n", ends: Ok(1) },
    Row { script: b"s/b*/X/2\np\nQ\n", file: Some(b"abb\n"), output: b"aX\n", ends: Ok(1) },
    Row { script: b"s/\\(a*\\)*/x\\1/g\np\nQ\n", file: Some(b"baac\n"), output: b"xbxaacx\n", ends: Ok(1) },
    Row { script: b"s/X/-/3p\n", file: CROSSES, output: b"?\n", ends: Err(Fault::NoMatch) },
    Row { script: b"s/a/aa/gp\nQ\n", file: Some(b"aba\n"), output: b"aabaa\n", ends: Ok(1) },
    Row { script: b"s/^a/-/gp\nQ\n", file: Some(b"aaa\n"), output: b"-aa\n", ends: Ok(1) },
    Row { script: b"s/$/x/p\nQ\n", file: Some(b"\n"), output: b"x\n", ends: Ok(1) },
    Row { script: b"s,a\\,b,c,p\nQ\n", file: Some(b"a,b\n"), output: b"c\n", ends: Ok(1) },
    Row { script: b"s/X/\\&&\\\\/p\nQ\n", file: CROSSES, output: b"a&X\\bXc\n", ends: Ok(1) },
    Row { script: b"s/a/b/g2\n", file: Some(b"a\n"), output: b"?\n", ends: Err(Fault::Syntax) },
    Row { script: b"s/a/b/gg\n", file: Some(b"a\n"), output: b"?\n", ends: Err(Fault::Syntax) },
    Row { script: b"s/a/b/0\n", file: Some(b"a\n"), output: b"?\n", ends: Err(Fault::Syntax) },
    Row { script: b"s/X/-\nQ\n", file: CROSSES, output: b"a-bXc\n", ends: Ok(1) },
    Row { script: b"3c\n..\n.\ns/.//\n1d\n,p\nQ\n", file: Some(b"a\nb\nc\n"), output: b"b\n.\n", ends: Ok(2) },
];

// What is remembered, and the order of faults.
#[rattlefmt::skip]
static REMEMBERED: [Row; 9] = [
    Row { script: b"s/X/%/\n", file: CROSSES, output: b"?\n", ends: Err(Fault::Replacement) },
    Row { script: b"s//%/\n", file: CROSSES, output: b"?\n", ends: Err(Fault::Replacement) },
    Row { script: b"s//x/\n", file: CROSSES, output: b"?\n", ends: Err(Fault::Pattern) },
    Row { script: b"2s/X/%/\n", file: CROSSES, output: b"?\n", ends: Err(Fault::Address) },
    Row { script: b"/z/s/X/%/\n", file: CROSSES, output: b"?\n", ends: Err(Fault::NoMatch) },
    Row { script: b"/X/s//-/p\nQ\n", file: CROSSES, output: b"a-bXc\n", ends: Ok(1) },
    Row { script: b"s/b/-/p\n/X/s//%/p\nQ\n", file: CROSSES, output: b"aX-Xc\na--Xc\n", ends: Ok(1) },
    Row { script: b"s/X/-/p\n//=\nQ\n", file: CROSSES, output: b"a-bXc\n1\n", ends: Ok(1) },
    Row { script: b"s/X/%%/p\nQ\n", file: CROSSES, output: b"a%%bXc\n", ends: Ok(1) },
];

// The lines of a range, splits, marks and the current line.
#[rattlefmt::skip]
static LINES: [Row; 12] = [
    Row { script: b"s/,/\\\n/p\n,n\nQ\n", file: Some(b"a,b\n"), output: b"b\n1\ta\n2\tb\n", ends: Ok(2) },
    Row { script: b"s/,/\\\n\\\n/g\n,n\n.=\nQ\n", file: Some(b",a,\n"), output: b"1\t\n2\t\n3\ta\n4\t\n5\t\n5\n", ends: Ok(5) },
    Row { script: b"1ka\n1s/b/x/\n'a\n", file: Some(b"b\nd\n"), output: b"?\n", ends: Err(Fault::Mark) },
    Row { script: b",s/a/x/n\n.=\n,p\nQ\n", file: Some(b"aa\nb\nab\nc\n"), output: b"3\txb\n3\nxa\nb\nxb\nc\n", ends: Ok(4) },
    Row { script: b"2ka\n1,2s/,/\\\n/\n.=\n'ap\nQ\n", file: Some(b"a,b\nc\n"), output: b"2\nc\n", ends: Ok(3) },
    Row { script: b"1s/,/\\\n/\n$s//%/\n,p\nQ\n", file: Some(b"a,b\nc,d\n"), output: b"a\nb\nc\nd\n", ends: Ok(4) },
    Row { script: b",s/,/\\\n/g\n.=\n,n\nQ\n", file: Some(b"a\nb,c\nd\n,\ne\n"), output: b"6\n1\ta\n2\tb\n3\tc\n4\td\n5\t\n6\t\n7\te\n", ends: Ok(7) },
    Row { script: b"1,2s/b/x/\n.=\nQ\n", file: Some(b"a\nb\nc\n"), output: b"2\n", ends: Ok(3) },
    Row { script: b"2,3s/a/x/\n", file: Some(b"a\nb\nc\n"), output: b"?\n", ends: Err(Fault::NoMatch) },
    Row { script: b"s/a/x/\n", file: Some(b""), output: b"?\n", ends: Err(Fault::Address) },
    Row { script: b"1s/b/x/l\nQ\n", file: Some(b"b\t\n"), output: b"x\\t$\n", ends: Ok(1) },
    Row { script: b"1s/a/x/\n", file: Some(b"a\n"), output: b"?\n", ends: Err(Fault::Unsaved) },
];

// Rows that are also run with each allocation refused in turn.
#[rattlefmt::skip]
static SHORT_OF_MEMORY: [Row; 3] = [
    Row { script: b"s/a*/x/gp\nQ\n", file: Some(b"baaac\n"), output: b"xbxcx\n", ends: Ok(1) },
    Row { script: b"s/X/-/2p\ns/X/%/p\nQ\n", file: CROSSES, output: b"aXb-c\na-b-c\n", ends: Ok(1) },
    Row { script: b"1ka\n2kb\n1s/,/\\\n/gp\n.=\n'bp\n,p\n'a\n", file: Some(b"a,b,c\nd\n"), output: b"c\n3\nd\na\nb\nc\nd\n?\n", ends: Err(Fault::Mark) },
];

#[test]
fn matches_are_replaced_as_the_standard_says(rt: HostRuntime) {
    check_each(&rt, rt.alloc(), &MATCHES);
    check_each(&rt, rt.alloc(), &SHORT_OF_MEMORY);
}

#[test]
fn patterns_and_replacements_are_remembered(rt: HostRuntime) {
    check_each(&rt, rt.alloc(), &REMEMBERED);
}

#[test]
fn the_lines_of_a_range_are_rewritten_one_by_one(rt: HostRuntime) {
    check_each(&rt, rt.alloc(), &LINES);
}

/// To be run with each allocation refused in turn (`rt try --test --fail-alloc N`): the run ends as it should or by being out of memory.
#[test]
fn a_run_that_is_out_of_memory_ends_by_no_other_fault(rt: HostRuntime) {
    check_memory(&rt, rt.alloc(), &SHORT_OF_MEMORY);
}
