//! Where the commands of a script stand, and where the parts of a line end.
use crate::asserting::same;
use ed_syntax::{Span, TextPlace, addresses_end, list_places, pattern_end, places, text_place};
use std::alloc::Global;
use std::process::Abort;

struct PlacesRow {
    script: &'static [u8],
    spans: &'static [Span],
}

// The last command, or what can't be read, goes on to the end.
#[rattlefmt::skip]
static PLACES: [PlacesRow; 9] = [
    PlacesRow { script: b"", spans: &[] },
    PlacesRow { script: b"p", spans: &[Span { line: 1, low: 0, high: 1 }] },
    PlacesRow {
        script: b"p\n\n$p\n",
        spans: &[Span { line: 1, low: 0, high: 2 }, Span { line: 2, low: 2, high: 3 }, Span { line: 3, low: 3, high: 6 }],
    },
    PlacesRow { script: b"a\nx\n.\nz\nQ\n", spans: &[Span { line: 1, low: 0, high: 6 }, Span { line: 4, low: 6, high: 10 }] },
    PlacesRow { script: b"p\n1i\nx", spans: &[Span { line: 1, low: 0, high: 2 }, Span { line: 2, low: 2, high: 6 }] },
    PlacesRow { script: b"a\n\n\n.\n\n", spans: &[Span { line: 1, low: 0, high: 6 }, Span { line: 5, low: 6, high: 7 }] },
    PlacesRow { script: b"s/a/b\\\nc/\np\n", spans: &[Span { line: 1, low: 0, high: 10 }, Span { line: 3, low: 10, high: 12 }] },
    PlacesRow { script: b"g/x/s//y/\\\nd\nQ\n", spans: &[Span { line: 1, low: 0, high: 13 }, Span { line: 3, low: 13, high: 15 }] },
    PlacesRow { script: b"g/x/a\\\ny\\\n.\nw\n", spans: &[Span { line: 1, low: 0, high: 12 }, Span { line: 4, low: 12, high: 14 }] },
];

fn check_places(rt: &impl Abort, alloc: Global, row: &PlacesRow) {
    let spans = places(alloc, row.script).expect(rt, "memory");
    same(rt, spans.as_slice() == row.spans, true, row.script);
}

#[test]
fn each_command_stands_where_the_one_before_it_ends(rt: HostRuntime) {
    for row in &PLACES {
        check_places(&rt, rt.alloc(), row);
    }
}

// A line of a list begins after the backslash and the newline that join it to the one before.
#[rattlefmt::skip]
static LISTS: [PlacesRow; 13] = [
    PlacesRow { script: b"", spans: &[] },
    PlacesRow { script: b"1,$p\n", spans: &[] },
    PlacesRow { script: b"s/g/x/\n", spans: &[] },
    PlacesRow { script: b"g/x/d\n", spans: &[Span { line: 1, low: 4, high: 6 }] },
    PlacesRow { script: b"1,$v,[/,]\\,,-d", spans: &[Span { line: 1, low: 12, high: 14 }] },
    PlacesRow { script: b"g/x", spans: &[Span { line: 1, low: 3, high: 3 }] },
    PlacesRow { script: b"g/x/ \n", spans: &[Span { line: 1, low: 4, high: 6 }] },
    PlacesRow { script: b"g/x/d\\\n", spans: &[Span { line: 1, low: 4, high: 7 }] },
    PlacesRow {
        script: b"g/x/s//y/\\\nd\n",
        spans: &[Span { line: 1, low: 4, high: 11 }, Span { line: 2, low: 11, high: 13 }],
    },
    PlacesRow {
        script: b"g/x/\\\n\\\np\n",
        spans: &[Span { line: 1, low: 4, high: 6 }, Span { line: 2, low: 6, high: 8 }, Span { line: 3, low: 8, high: 10 }],
    },
    PlacesRow {
        script: b"g/x/a\\\ny\\\n\\\n.\\\n-p\n",
        spans: &[Span { line: 1, low: 4, high: 15 }, Span { line: 5, low: 15, high: 18 }],
    },
    PlacesRow {
        script: b"v/x/d\\\ni\\\ny\n",
        spans: &[Span { line: 1, low: 4, high: 7 }, Span { line: 2, low: 7, high: 12 }],
    },
    PlacesRow {
        script: b"g/x/s/a/\\\\/\\\np\\\n",
        spans: &[Span { line: 1, low: 4, high: 13 }, Span { line: 2, low: 13, high: 16 }],
    },
];

fn check_list(rt: &impl Abort, alloc: Global, row: &PlacesRow) {
    let spans = list_places(alloc, row.script).expect(rt, "memory");
    same(rt, spans.as_slice() == row.spans, true, row.script);
}

#[test]
fn each_command_of_a_list_stands_where_the_one_before_it_ends(rt: HostRuntime) {
    for row in &LISTS {
        check_list(&rt, rt.alloc(), row);
    }
}

struct TextRow {
    command: &'static [u8],
    text: TextPlace,
}

// Lines after the period are no part of the command.
#[rattlefmt::skip]
static TEXTS: [TextRow; 10] = [
    TextRow { command: b"a\nx\ny\n.\n", text: TextPlace { low: 2, high: 6, closed: true } },
    TextRow { command: b"$a\nx\ny\n", text: TextPlace { low: 3, high: 7, closed: false } },
    TextRow { command: b"1,2c\nx\n.", text: TextPlace { low: 5, high: 7, closed: true } },
    TextRow { command: b"i\n.\n", text: TextPlace { low: 2, high: 2, closed: true } },
    TextRow { command: b"i\n", text: TextPlace { low: 2, high: 2, closed: false } },
    TextRow { command: b"i", text: TextPlace { low: 1, high: 1, closed: false } },
    TextRow { command: b"a\n..\n.\n", text: TextPlace { low: 2, high: 5, closed: true } },
    TextRow { command: b"a\n..\n. \n .", text: TextPlace { low: 2, high: 10, closed: false } },
    TextRow { command: b"a\n\n\n.\n.\np\n", text: TextPlace { low: 2, high: 4, closed: true } },
    TextRow { command: b"", text: TextPlace { low: 0, high: 0, closed: false } },
];

#[test]
fn a_text_stands_between_its_command_and_its_period(rt: HostRuntime) {
    for row in &TEXTS {
        same(&rt, text_place(row.command), row.text, row.command);
    }
}

struct EndRow {
    line: &'static [u8],
    end: Option<usize>,
}

#[rattlefmt::skip]
static ADDRESSES: [EndRow; 8] = [
    EndRow { line: b"", end: Some(0) },
    EndRow { line: b"p", end: Some(0) },
    EndRow { line: b" \t,d", end: Some(3) },
    EndRow { line: b"1,/x/+2 p", end: Some(8) },
    EndRow { line: b"'a;?[?]?-p", end: Some(9) },
    EndRow { line: b"/x", end: Some(2) },
    EndRow { line: b"'Ap", end: None },
    EndRow { line: b"1,/[/p", end: None },
];

fn check_addresses(rt: &impl Abort, alloc: Global, row: &EndRow) {
    let end = addresses_end(alloc, row.line).expect(rt, "memory");
    same(rt, end, row.end, row.line);
}

#[test]
fn addresses_end_before_the_letter(rt: HostRuntime) {
    for row in &ADDRESSES {
        check_addresses(&rt, rt.alloc(), row);
    }
}

// After a first `/`. A text need not be a pattern.
#[rattlefmt::skip]
static PATTERNS: [EndRow; 8] = [
    EndRow { line: b"", end: Some(0) },
    EndRow { line: b"/p", end: Some(0) },
    EndRow { line: b"a/p", end: Some(1) },
    EndRow { line: b"a[/]b/c/", end: Some(5) },
    EndRow { line: b"a\\/b", end: Some(4) },
    EndRow { line: b"\\(a/d", end: Some(3) },
    EndRow { line: b"[/", end: None },
    EndRow { line: b"a\\", end: None },
];

fn check_pattern(rt: &impl Abort, alloc: Global, row: &EndRow) {
    let end = pattern_end(alloc, b'/', row.line).expect(rt, "memory");
    same(rt, end, row.end, row.line);
}

#[test]
fn a_pattern_ends_before_its_delimiter(rt: HostRuntime) {
    for row in &PATTERNS {
        check_pattern(&rt, rt.alloc(), row);
    }
}
