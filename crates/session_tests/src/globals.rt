//! Runs of `g`, `v` and `u`: what they write and how they end, as the standard says, and that a run that is out of memory says so.
use crate::driving::{ABA, ABC, ARROW, Case, Row, UNREFUSED, check, check_each, check_memory};
use ed_base::Fault;

const AB: Option<&[u8]> = Some(b"a\nb\n");

// XCU ed, "Global Command", "Global Non-Matched Command": which lines are taken, and in which order.
#[rattlefmt::skip]
static TAKEN: [Row; 23] = [
    Row { script: b"g/x/p\nw\nq\n", file: Some(b""), output: b"", ends: Ok(0) },
    Row { script: b"g/b\nQ\n", file: ABC, output: b"b\n", ends: Ok(3) },
    Row { script: b"v/b/p\nQ\n", file: ABC, output: b"a\nc\n", ends: Ok(3) },
    Row { script: b"2,3g/./n\nQ\n", file: ABC, output: b"2\tb\n3\tc\n", ends: Ok(3) },
    Row { script: b"2v/a/p\nQ\n", file: ABC, output: b"b\n", ends: Ok(3) },
    Row { script: b"0g/./p\n", file: ABC, output: b"?\n", ends: Err(Fault::Address) },
    Row { script: b"3,1g/./p\n", file: ABC, output: b"?\n", ends: Err(Fault::Address) },
    Row { script: b"1\ng/z/d\n.=\nQ\n", file: ABC, output: b"a\n1\n", ends: Ok(3) },
    Row { script: b"g/[ab]/p\n.=\nQ\n", file: ABC, output: b"a\nb\n2\n", ends: Ok(3) },
    Row { script: b"g/^/m0\n,p\nQ\n", file: ABC, output: b"c\nb\na\n", ends: Ok(3) },
    Row { script: b"g/x/d\n,p\nQ\n", file: Some(b"x\nx\ny\n"), output: b"y\n", ends: Ok(1) },
    Row { script: b"v/b/d\n,p\nQ\n", file: ABC, output: b"b\n", ends: Ok(1) },
    Row { script: b"g/x/+1d\n,p\nQ\n", file: Some(b"x1\nx2\nx3\nx4\n"), output: b"x1\nx3\n", ends: Ok(2) },
    Row { script: b"g/x/-1d\n,p\nQ\n", file: Some(b"a\nx1\nb\nx2\nc\nx3\n"), output: b"x1\nx2\nx3\n", ends: Ok(3) },
    Row { script: b"g/x/j\n,p\nQ\n", file: Some(b"x1\nx2\na\nx3\nx4\n"), output: b"x1x2\na\nx3x4\n", ends: Ok(3) },
    Row { script: b"g/x/m$\n,p\nQ\n", file: Some(b"x1\na\nx2\n"), output: b"a\nx1\nx2\n", ends: Ok(3) },
    Row { script: b"g/x/t.\n,p\nQ\n", file: Some(b"x\na\nx\n"), output: b"x\nx\na\nx\nx\n", ends: Ok(5) },
    Row { script: b"g/./ka\n'a=\nQ\n", file: ABC, output: b"3\n", ends: Ok(3) },
    Row { script: b"/b/\ng//p\nQ\n", file: ABC, output: b"b\nb\n", ends: Ok(3) },
    Row { script: b"/b/\nv//p\nQ\n", file: ABC, output: b"b\na\nc\n", ends: Ok(3) },
    Row { script: b"g//p\n", file: ABC, output: b"?\n", ends: Err(Fault::Pattern) },
    Row { script: b"v//p\n", file: Some(b""), output: b"?\n", ends: Err(Fault::Pattern) },
    Row { script: b"g/a/d\n", file: AB, output: b"?\n", ends: Err(Fault::Unsaved) },
];

// How lists are read, and their texts and suffixes.
#[rattlefmt::skip]
static LISTS: [Row; 20] = [
    Row { script: b"g/a/a\\\nx\n,p\nQ\n", file: AB, output: b"a\nx\nb\n", ends: Ok(3) },
    Row { script: b"g/b/i\\\nx\\\ny\n,p\nQ\n", file: AB, output: b"a\nx\ny\nb\n", ends: Ok(4) },
    Row { script: b"g/b/i\\\nx\\\n.\\\np\n,p\nQ\n", file: AB, output: b"x\na\nx\nb\n", ends: Ok(3) },
    Row { script: b"g/a/c\n,p\nQ\n", file: ABA, output: b"b\n", ends: Ok(1) },
    Row { script: b"g/b/t0p\n,p\nQ\n", file: ABC, output: b"b\nb\na\nb\nc\n", ends: Ok(4) },
    Row { script: b"g/c/kan\n'ap\nQ\n", file: ABC, output: b"3\tc\nc\n", ends: Ok(3) },
    Row { script: b"g/a/dp\n", file: Some(b"a\n"), output: b"?\n", ends: Err(Fault::Address) },
    Row { script: b"g/b/  \nQ\n", file: ABC, output: b"b\n", ends: Ok(3) },
    Row { script: b"g/a/p\\\n\nQ\n", file: ABC, output: b"a\nb\n", ends: Ok(3) },
    Row { script: b"g/a/p\\", file: ABC, output: b"a\n", ends: Ok(3) },
    Row { script: b"g/a/p\\\n", file: ABC, output: b"a\n", ends: Ok(3) },
    Row { script: b"g/a\\\np\n", file: ABC, output: b"?\n", ends: Err(Fault::Syntax) },
    Row { script: b"g/a/u\n", file: ABC, output: b"?\n", ends: Err(Fault::Syntax) },
    Row { script: b"g/a/q\n", file: ABC, output: b"?\n", ends: Err(Fault::Syntax) },
    Row { script: b"g/a/Q\n", file: ABC, output: b"?\n", ends: Err(Fault::Syntax) },
    Row { script: b"g/a/e\n", file: ABC, output: b"?\n", ends: Err(Fault::Syntax) },
    Row { script: b"g/a/E\n", file: ABC, output: b"?\n", ends: Err(Fault::Syntax) },
    Row { script: b"g/a/g/b/p\n", file: ABC, output: b"?\n", ends: Err(Fault::Syntax) },
    Row { script: b"g/a/v/b/p\n", file: ABC, output: b"?\n", ends: Err(Fault::Syntax) },
    Row { script: b"1p\ng/./p\\\nx\n", file: ABC, output: b"a\n?\n", ends: Err(Fault::Syntax) },
];

// What a list remembers and turns on, substitution in it, and its faults.
#[rattlefmt::skip]
static IN_LISTS: [Row; 14] = [
    Row { script: b"g/x/s//y/p\nQ\n", file: Some(b"xa\nb\nxc\n"), output: b"ya\nyc\n", ends: Ok(3) },
    Row { script: b"g/x/s/b/-/\n//=\nQ\n", file: Some(b"xa\nxb\nba\n"), output: b"3\n", ends: Ok(3) },
    Row { script: b"g/./s/b/x/p\n.=\nQ\n", file: ABC, output: b"x\n3\n", ends: Ok(3) },
    Row { script: b"g/z/s/z/y/\nq\n", file: AB, output: b"", ends: Ok(2) },
    Row { script: b"s/,/\\\n/\ng/a/s/a/%/\n", file: Some(b"a,b\n"), output: b"?\n", ends: Err(Fault::Replacement) },
    Row { script: b"g/./p\\\n9p\\\n=\n,p\nQ\n", file: ABC, output: b"a\n?\n", ends: Err(Fault::Address) },
    Row { script: b"g/x/j\n,p\nQ\n", file: Some(b"x1\nx2\nx3\n"), output: b"?\n", ends: Err(Fault::Address) },
    Row { script: b"g/./n\\\n/b/d\n", file: ABC, output: b"1\ta\n2\tc\n?\n", ends: Err(Fault::NoMatch) },
    Row { script: b"g/./'ap\n", file: ABC, output: b"?\n", ends: Err(Fault::Mark) },
    Row { script: b"g/./H\\\n9p\n", file: ABC, output: b"?\ninvalid address\n", ends: Err(Fault::Address) },
    Row { script: b"g/a/H\n9p\n", file: ABC, output: b"?\ninvalid address\n", ends: Err(Fault::Address) },
    Row { script: b"g/a/H\n9p\n", file: ABA, output: b"?\n", ends: Err(Fault::Address) },
    Row { script: b"g/a/P\n1p\n", file: ABC, output: b"*a\n*", ends: Ok(3) },
    Row { script: b"g/a/hp\nQ\n", file: ABC, output: b"a\n", ends: Ok(3) },
];

// XCU ed, "Undo Command".
#[rattlefmt::skip]
static UNDONE: [Row; 23] = [
    Row { script: b"1d\nu\nu\n,p\nQ\n", file: AB, output: b"b\n", ends: Ok(1) },
    Row { script: b"1d\nu\n,p\nQ\n", file: AB, output: b"a\nb\n", ends: Ok(2) },
    Row { script: b"1d\nq\n", file: AB, output: b"?\n", ends: Err(Fault::Unsaved) },
    Row { script: b"u\n", file: AB, output: b"?\n", ends: Err(Fault::Undo) },
    Row { script: b"H\nu\n", file: AB, output: b"?\nnothing to undo\n", ends: Err(Fault::Undo) },
    Row { script: b"g/z/d\nu\nq\n", file: AB, output: b"", ends: Ok(2) },
    Row { script: b"1d\ng/z/d\nu\n,p\nQ\n", file: ABC, output: b"b\nc\n", ends: Ok(2) },
    Row { script: b"g/a/d\nu\n,p\nQ\n", file: ABA, output: b"a\nb\na\n", ends: Ok(3) },
    Row { script: b"g/a/s/b/-/\nu\n,p\n.=\nQ\n", file: Some(b"ab\nac\n"), output: b"ab\nac\n2\n", ends: Ok(2) },
    Row { script: b"1d\ng/b/s/b/-/\nu\n,p\nQ\n", file: ABC, output: b"b\nc\n", ends: Ok(2) },
    Row { script: b"1ka\ng/a/d\nu\n'a=\nQ\n", file: ABA, output: b"1\n", ends: Ok(3) },
    Row { script: b"2ka\n2d\nu\n'a=\nQ\n", file: ABC, output: b"2\n", ends: Ok(3) },
    Row { script: b"1d\n1ka\nu\n'a=\n", file: ABC, output: b"?\n", ends: Err(Fault::Mark) },
    Row { script: b"1d\n1ka\nu\nu\n'a=\nQ\n", file: ABC, output: b"1\n", ends: Ok(2) },
    Row { script: b"1;2d\nu\n.=\nQ\n", file: ABC, output: b"3\n", ends: Ok(3) },
    Row { script: b"1d\nup\nQ\n", file: AB, output: b"b\n", ends: Ok(2) },
    Row { script: b"1d\nun\nQ\n", file: AB, output: b"2\tb\n", ends: Ok(2) },
    Row { script: b"a\nx\n.\nup\n", file: Some(b""), output: b"?\n", ends: Err(Fault::Address) },
    Row { script: b"1u\n", file: AB, output: b"?\n", ends: Err(Fault::Syntax) },
    Row { script: b"1d\nw\nu\n,p\nq\n", file: AB, output: b"a\nb\n?\n", ends: Err(Fault::Unsaved) },
    Row { script: b"1d\nw\ne\nu\n", file: AB, output: b"?\n", ends: Err(Fault::Undo) },
    Row { script: b"s/a/x/\nu\ns//%/p\nQ\n", file: Some(b"a\n"), output: b"x\n", ends: Ok(1) },
    Row { script: b"0a\n.\nu\nq\n", file: AB, output: b"?\n", ends: Err(Fault::Undo) },
];

// Rows that are also run with each allocation refused in turn.
#[rattlefmt::skip]
static SHORT_OF_MEMORY: [Row; 4] = [
    Row { script: b"g/x/$m0\\\n.=\n,p\nQ\n", file: Some(b"b\nx1\nc\nx2\n"), output: b"1\n1\nc\nx2\nb\nx1\n", ends: Ok(4) },
    Row { script: b"g/a/c\\\nx\\\ny\n,p\nQ\n", file: ABA, output: b"x\ny\nb\nx\ny\n", ends: Ok(5) },
    Row { script: b"g/x/s/a/-/\\\n//p\n,p\nQ\n", file: Some(b"xa\nxb\nba\n"), output: b"ba\nba\nx-\nxb\nba\n", ends: Ok(3) },
    Row { script: b"g/a/d\nu\nu\n,p\nQ\n", file: ABA, output: b"b\n", ends: Ok(1) },
];

#[test]
fn lines_are_taken_as_the_standard_says(rt: HostRuntime) {
    check_each(&rt, rt.alloc(), &TAKEN);
    check_each(&rt, rt.alloc(), &SHORT_OF_MEMORY);
}

#[test]
fn lists_are_read_line_by_line(rt: HostRuntime) {
    check_each(&rt, rt.alloc(), &LISTS);
}

#[test]
fn lists_remember_and_fail_as_commands_do(rt: HostRuntime) {
    check_each(&rt, rt.alloc(), &IN_LISTS);
}

#[test]
fn changes_are_undone_as_the_standard_says(rt: HostRuntime) {
    check_each(&rt, rt.alloc(), &UNDONE);
}

/// The prompt comes before a global command, and not before the commands of its list.
#[test]
fn a_list_has_no_prompts(rt: HostRuntime) {
    let case = Case {
        script: b"g/./p\\\n=\n1p\n",
        file: AB,
        prompt: ARROW,
        ..UNREFUSED
    };
    check(&rt, rt.alloc(), case, b"> a\n2\nb\n2\n> a\n> ", Ok(2));
}

/// To be run with each allocation refused in turn (`rt try --test --fail-alloc N`): the run ends as it should or by being out of memory.
#[test]
fn a_global_that_is_out_of_memory_ends_by_no_other_fault(rt: HostRuntime) {
    check_memory(&rt, rt.alloc(), &SHORT_OF_MEMORY);
}
