//! Texts of which two patterns answer as is said, and pairs of which no text does. Worked out by hand.

use crate::matching::{pattern, pattern_unless_refused};
use bre_match::{Answer, Witness, find_witness};
use std::alloc::AllocError;
use std::test::Fail;

#[derive(Clone, Copy)]
enum Told {
    Text(&'static [u8]),
    NoText,
    Unknown,
}

/// What is told of the texts that both match, and of those that one matches without the other.
struct Pair {
    one: &'static [u8],
    other: &'static [u8],
    both: Told,
    one_alone: Told,
    other_alone: Told,
}

#[rattlefmt::skip]
static PAIRS: [Pair; 26] = [
    Pair { one: b"^a=", other: b"^b=", both: Told::NoText, one_alone: Told::Text(b"a="), other_alone: Told::Text(b"b=") },
    Pair { one: b"^#Port", other: b"^#", both: Told::Text(b"#Port"), one_alone: Told::NoText, other_alone: Told::Text(b"#") },
    Pair { one: b"^a=", other: b"=", both: Told::Text(b"a="), one_alone: Told::NoText, other_alone: Told::Text(b"=") },
    Pair { one: b"x", other: b".*", both: Told::Text(b"x"), one_alone: Told::NoText, other_alone: Told::Text(b"") },
    Pair { one: b"", other: b".*", both: Told::Text(b""), one_alone: Told::NoText, other_alone: Told::NoText },
    Pair { one: b"port=[0-9]", other: b"=80$", both: Told::Text(b"port=80"), one_alone: Told::Text(b"port=0"), other_alone: Told::Text(b"=80") },
    // Lengths and ends.
    Pair { one: b"^.$", other: b"^..$", both: Told::NoText, one_alone: Told::Text(b"a"), other_alone: Told::Text(b"aa") },
    Pair { one: b"^$", other: b".", both: Told::NoText, one_alone: Told::Text(b""), other_alone: Told::Text(b"a") },
    Pair { one: b"a$", other: b"b$", both: Told::NoText, one_alone: Told::Text(b"a"), other_alone: Told::Text(b"b") },
    Pair { one: b"^a\\{2,3\\}$", other: b"^\\(aa\\)*$", both: Told::Text(b"aa"), one_alone: Told::Text(b"aaa"), other_alone: Told::Text(b"") },
    Pair { one: b"^\\(aa\\)*$", other: b"^a*$", both: Told::Text(b""), one_alone: Told::NoText, other_alone: Told::Text(b"a") },
    Pair { one: b"\\(^a\\)", other: b"^a", both: Told::Text(b"a"), one_alone: Told::NoText, other_alone: Told::NoText },
    // Sets. Letters come before digits, and digits before what else can be printed.
    Pair { one: b"^[^a]", other: b"^[[:alpha:]]", both: Told::Text(b"b"), one_alone: Told::Text(b"0"), other_alone: Told::Text(b"a") },
    Pair { one: b"^[^[:alpha:]]", other: b"^[b-y]", both: Told::NoText, one_alone: Told::Text(b"0"), other_alone: Told::Text(b"b") },
    Pair { one: b"^b*$", other: b"^$", both: Told::Text(b""), one_alone: Told::Text(b"b"), other_alone: Told::NoText },
    Pair { one: b"^[^[:lower:][:digit:]]$", other: b"!", both: Told::Text(b"!"), one_alone: Told::Text(b"A"), other_alone: Told::Text(b"a!") },
    Pair { one: b"^[^[:alnum:]]$", other: b"!", both: Told::Text(b"!"), one_alone: Told::Text(b"\""), other_alone: Told::Text(b"a!") },
    // A longer text that can be printed comes before a shorter one that can't, and a tab before what else can't.
    Pair { one: b"^\t\\{0,1\\}a*$", other: b"^a\\{0,3\\}$", both: Told::Text(b""), one_alone: Told::Text(b"aaaa"), other_alone: Told::NoText },
    Pair { one: b"^[^ -~]$", other: b"a", both: Told::NoText, one_alone: Told::Text(b"\t"), other_alone: Told::Text(b"a") },
    Pair { one: b"^[^\x00-\xfe]$", other: b"a", both: Told::NoText, one_alone: Told::Text(b"\xff"), other_alone: Told::Text(b"a") },
    // Here 256 sets of marks are looked at, and there 201 byte sets stand in one pattern.
    Pair { one: b"a.\\{6\\}b$", other: b"c$", both: Told::NoText, one_alone: Told::Text(b"aaaaaaab"), other_alone: Told::Text(b"c") },
    Pair { one: b"^a\\{0,200\\}b$", other: b"^b", both: Told::Text(b"b"), one_alone: Told::Text(b"ab"), other_alone: Told::Text(b"ba") },
    // No text matches both of these, and some match the first alone, but more than 256 sets of marks would have to be looked at.
    Pair { one: b"a.\\{9\\}b$", other: b"c$", both: Told::Unknown, one_alone: Told::Unknown, other_alone: Told::Text(b"c") },
    // Of back-references, ranges up to the last byte and more than 256 byte sets nothing is told.
    Pair { one: b"^\\(a\\)\\1", other: b"^b", both: Told::Unknown, one_alone: Told::Unknown, other_alone: Told::Unknown },
    Pair { one: b"^[\xf0-\xff]", other: b"^b", both: Told::Unknown, one_alone: Told::Unknown, other_alone: Told::Unknown },
    Pair { one: b"^a\\{255\\}aa", other: b"^b", both: Told::Unknown, one_alone: Told::Unknown, other_alone: Told::Unknown },
];

fn is_told(witness: &Witness, told: Told) -> bool {
    match witness {
        Witness::Text(text) => match told {
            Told::Text(expected) => text.as_slice() == expected,
            Told::NoText | Told::Unknown => false,
        },
        Witness::NoText => matches!(told, Told::NoText),
        Witness::Unknown => matches!(told, Told::Unknown),
    }
}

#[test]
fn a_pair_has_the_text_that_answers_or_none(rt: HostRuntime) -> Result<(), Fail> {
    for row in PAIRS.as_slice() {
        let one = pattern(rt.alloc(), row.one)?;
        let other = pattern(rt.alloc(), row.other)?;
        for (first, second, told) in [
            (true, true, row.both),
            (true, false, row.one_alone),
            (false, true, row.other_alone),
        ] {
            let answers = [
                Answer {
                    pattern: &one,
                    matches: first,
                },
                Answer {
                    pattern: &other,
                    matches: second,
                },
            ];
            let witness = find_witness(rt.alloc(), &answers)?;
            assert!(rt;
                is_told(&witness, told),
                "{:?} {first}, {:?} {second}",
                row.one,
                row.other
            );
        }
    }
    Ok(())
}

#[test]
fn any_number_of_patterns_may_be_asked(rt: HostRuntime) -> Result<(), Fail> {
    let alloc = rt.alloc();
    let (begun, ended, between) = (
        pattern(alloc, b"^a")?,
        pattern(alloc, b"b$")?,
        pattern(alloc, b"ab")?,
    );
    let first = Answer {
        pattern: &begun,
        matches: true,
    };
    let last = Answer {
        pattern: &ended,
        matches: true,
    };
    let not_between = Answer {
        pattern: &between,
        matches: false,
    };
    assert!(rt; is_told(&find_witness(alloc, &[])?, Told::Text(b"")));
    assert!(rt; is_told(&find_witness(alloc, &[first])?, Told::Text(b"a")));
    assert!(rt; is_told(&find_witness(alloc, &[first, last])?, Told::Text(b"ab")));
    assert!(rt;
        is_told(
            &find_witness(alloc, &[first, last, not_between])?,
            Told::Text(b"acb")
        )
    );
    Ok(())
}

/// To be run with each allocation refused in turn (`rt try --test --fail-alloc N`): the answer is the text, or want of memory.
#[test]
fn want_of_memory_hides_no_text(rt: HostRuntime) -> Result<(), Fail> {
    let Some(one) = pattern_unless_refused(rt.alloc(), b"^a*b")? else {
        return Ok(());
    };
    let Some(other) = pattern_unless_refused(rt.alloc(), b"c$")? else {
        return Ok(());
    };
    let answers = [
        Answer {
            pattern: &one,
            matches: true,
        },
        Answer {
            pattern: &other,
            matches: true,
        },
    ];
    match find_witness(rt.alloc(), &answers) {
        Ok(witness) => assert!(rt; is_told(&witness, Told::Text(b"bc"))),
        Err(AllocError { .. }) => {}
    }
    Ok(())
}
