//! Runs of many searches by the same patterns: what one search has learned serves the next ones, and changes nothing of what they find.
use crate::driving::{Row, check_each, check_memory};
use ed_base::Fault;

// Long enough for an automaton, which isn't made for the first bytes that are searched.
#[rattlefmt::skip]
const LONG: Option<&[u8]> = Some(
    b"x----------------------------------------------------------------------y1\ny----------------------------------------------------------------------x2\nxy3\n----------------------------------------------------------------------4\n-x-y----------------------------------------------------------------------x-y5\n",
);

// Searches by one pattern, by addresses and by commands, up to one that finds nothing; and by two patterns in turn.
#[rattlefmt::skip]
static AGAIN: [Row; 2] = [
    Row { script: b"/x.*y/;=\n//;=\n//;=\n??;=\n?x.*y?;=\n//;=\nv//.=\ng//s//Z/p\nu\n.=\ng//.=\n5s//Z/p\n2;//=\ng//d\n//\n", file: LONG, output: b"1\n3\n5\n3\n1\n3\n2\n4\nZ1\nZ3\n-Z5\n4\n1\n3\n5\n-Z5\n3\n?\n", ends: Err(Fault::NoMatch) },
    Row { script: b"/y.*x/;=\n/x.*y/;=\nw\n//;=\n/y.*x/;=\n//;=\ns//\\\n/n\n1,$s//<&>/\n//=\nE\n//;=\ng//s/---*//p\n//=\n?y.*x?=\n/q/\n", file: LONG, output: b"2\n3\n5\n2\n5\n6\t-y5\n2\n2\nyx2\n-x-yx-y5\n1\n2\n?\n", ends: Err(Fault::NoMatch) },
];

#[test]
fn a_search_finds_what_it_would_find_as_the_first_one(rt: HostRuntime) {
    check_each(&rt, rt.alloc(), &AGAIN);
}

/// To be run with each allocation refused in turn (`rt try --test --fail-alloc N`): the run ends as it should or by being out of memory.
#[test]
fn searches_that_are_out_of_memory_end_by_no_other_fault(rt: HostRuntime) {
    check_memory(&rt, rt.alloc(), &AGAIN);
}
