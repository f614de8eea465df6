//! Runs of scripts: what they write and how they end, as the standard says (XCU ed).
use crate::driving::{ABA, ABC, ARROW, Case, Row, UNREFUSED, check, check_each};
use ed_base::Fault;

const FIVE: &[u8] = b"1\n2\n3\n4\n5\n";

// A line of eighty letters.
const EIGHTY: Option<&[u8]> = Some(
    b"aaaaaaaaaaaaaaaaaaaaaaaaaaaaaaaaaaaaaaaaaaaaaaaaaaaaaaaaaaaaaaaaaaaaaaaaaaaaaaaa\n",
);

// XCU ed, "Commands in ed".
#[rattlefmt::skip]
static COMMANDS: [Row; 26] = [
    Row { script: b"2d\n,p\nQ\n", file: ABC, output: b"a\nc\n", ends: Ok(2) },
    Row { script: b",p", file: Some(b""), output: b"?\n", ends: Err(Fault::Address) },
    Row { script: b"a\nx", file: Some(b""), output: b"?\n", ends: Err(Fault::Unsaved) },
    Row { script: b"9p\n", file: ABC, output: b"?\n", ends: Err(Fault::Address) },
    Row { script: b"3,1p\n", file: ABC, output: b"?\n", ends: Err(Fault::Address) },
    Row { script: b"x\n", file: ABC, output: b"?\n", ends: Err(Fault::Syntax) },
    Row { script: b"1,2a\nz\n.\n,p\nQ\n", file: ABC, output: b"a\nb\nz\nc\n", ends: Ok(4) },
    Row { script: b"1p\n2p\nx\n", file: ABC, output: b"a\nb\n?\n", ends: Err(Fault::Syntax) },
    Row { script: b"p\n", file: ABC, output: b"c\n", ends: Ok(3) },
    Row { script: b"Q\n9p\n", file: ABC, output: b"", ends: Ok(3) },
    Row { script: b"", file: ABC, output: b"", ends: Ok(3) },
    Row { script: b"", file: None, output: b"", ends: Ok(0) },
    Row { script: b"a\nx\n.\n,p\nQ\n", file: None, output: b"x\n", ends: Ok(1) },
    Row { script: b"p\n,p\n$-1p\n.=\nQ\n", file: ABC, output: b"c\na\nb\nc\nb\n2\n", ends: Ok(3) },
    Row { script: b"2d\n.p\n.=\nQ\n", file: Some(b"a\nb\nc"), output: b"c\n2\n", ends: Ok(2) },
    Row { script: b"2,$d\np\n.=\nQ\n", file: ABC, output: b"a\n1\n", ends: Ok(1) },
    Row { script: b"1dp\ndp\n", file: Some(b"a\nb\n"), output: b"b\n?\n", ends: Err(Fault::Address) },
    Row { script: b"0a\n\0\xff\n\n.\np\n,p\n.=\nQ\n", file: Some(b"a\nb\n"), output: b"\n\0\xff\n\na\nb\n4\n", ends: Ok(4) },
    Row { script: b"1,2a\nx\n.\n,p\n.=\nQ\n", file: ABC, output: b"a\nb\nx\nc\n4\n", ends: Ok(4) },
    Row { script: b"1a\n.\np\n.=\nQ\n", file: Some(b"a\nb\n"), output: b"a\n1\n", ends: Ok(2) },
    Row { script: b"$a\nx\ny\n.\np\n.=\nQ\n", file: Some(b""), output: b"y\n2\n", ends: Ok(2) },
    Row { script: b"p\n", file: Some(b""), output: b"?\n", ends: Err(Fault::Address) },
    Row { script: b"2p\n4p\n1p\n", file: ABC, output: b"b\n?\n", ends: Err(Fault::Address) },
    Row { script: b"1p\n\n\n2\n.=\nQ\n", file: ABC, output: b"a\nb\nc\nb\n2\n", ends: Ok(3) },
    Row { script: b"3,1d\np\n", file: ABC, output: b"?\n", ends: Err(Fault::Address) },
    Row { script: b"\n", file: ABC, output: b"?\n", ends: Err(Fault::Address) },
];

// XCU ed, "Addresses in ed".
#[rattlefmt::skip]
static ADDRESSES: [Row; 19] = [
    Row { script: b"1;+1p\nQ\n", file: ABC, output: b"a\nb\n", ends: Ok(3) },
    Row { script: b"1,+1p\n", file: ABC, output: b"?\n", ends: Err(Fault::Address) },
    Row { script: b"'a\n", file: ABA, output: b"?\n", ends: Err(Fault::Mark) },
    Row { script: b"-5+4=\nQ\n", file: ABC, output: b"2\n", ends: Ok(3) },
    Row { script: b"-5+6=\n", file: ABC, output: b"?\n", ends: Err(Fault::Address) },
    Row { script: b"3,1=\nQ\n", file: ABC, output: b"1\n", ends: Ok(3) },
    Row { script: b"9,1=\n", file: ABC, output: b"?\n", ends: Err(Fault::Address) },
    Row { script: b"0;1=\nQ\n", file: ABC, output: b"1\n", ends: Ok(3) },
    Row { script: b"2ka\n1d\n'a=\nQ\n", file: ABC, output: b"1\n", ends: Ok(2) },
    Row { script: b"2ka\n2d\n'a=\n", file: ABC, output: b"?\n", ends: Err(Fault::Mark) },
    Row { script: b" \n", file: ABC, output: b"?\n", ends: Err(Fault::Address) },
    Row { script: b"1;2=\n.=\n=\n0=\n.=\nQ\n", file: ABC, output: b"2\n1\n3\n0\n1\n", ends: Ok(3) },
    Row { script: b"1;+1p\n2;p\n;p\n.=\nQ\n", file: ABC, output: b"a\nb\nb\nb\nc\n3\n", ends: Ok(3) },
    Row { script: b"2ka\n1ka\n'ap\n.=\nQ\n", file: ABC, output: b"a\n1\n", ends: Ok(3) },
    Row { script: b"1kz\n.=\n.=\nQ\n", file: ABC, output: b"3\n3\n", ends: Ok(3) },
    Row { script: b"0ka\n", file: ABC, output: b"?\n", ends: Err(Fault::Address) },
    Row { script: b"'b=\n", file: ABC, output: b"?\n", ends: Err(Fault::Mark) },
    Row { script: b"$+999999999p\n", file: ABC, output: b"?\n", ends: Err(Fault::Address) },
    Row { script: b"$-999999999p\n", file: ABC, output: b"?\n", ends: Err(Fault::Address) },
];

// XCU ed, "Regular Expressions in ed".
#[rattlefmt::skip]
static SEARCHES: [Row; 15] = [
    Row { script: b"/b/\n//=\nQ\n", file: ABA, output: b"b\n2\n", ends: Ok(3) },
    Row { script: b"/a/=\nQ\n", file: ABA, output: b"1\n", ends: Ok(3) },
    Row { script: b"/z/\n", file: ABA, output: b"?\n", ends: Err(Fault::NoMatch) },
    Row { script: b"//\n", file: ABA, output: b"?\n", ends: Err(Fault::Pattern) },
    Row { script: b"/a/=\n?a?=\n.=\nQ\n", file: ABA, output: b"1\n1\n3\n", ends: Ok(3) },
    Row { script: b"1p\n/a/p\n/a/p\n.=\nQ\n", file: ABA, output: b"a\na\na\n1\n", ends: Ok(3) },
    Row { script: b"2p\n/b/=\n?b?=\n.=\nQ\n", file: ABA, output: b"b\n2\n2\n2\n", ends: Ok(3) },
    Row { script: b"1p\n?a?=\n0;?a?=\n0;/a/=\n.=\nQ\n", file: ABA, output: b"a\n3\n3\n1\n0\n", ends: Ok(3) },
    Row { script: b"/z/p\n", file: ABA, output: b"?\n", ends: Err(Fault::NoMatch) },
    Row { script: b"//p\n", file: ABA, output: b"?\n", ends: Err(Fault::Pattern) },
    Row { script: b"/a/=\n", file: Some(b""), output: b"?\n", ends: Err(Fault::NoMatch) },
    // `a,` is evaluated twice, and `a;` once.
    Row { script: b"/x/,p\n1p\n/x/;=\n.=\nQ\n", file: Some(b"x\ny\nx\n"), output: b"x\nx\n3\n3\n", ends: Ok(3) },
    Row { script: b"2p\n/x/;//=\n.=\nQ\n", file: Some(b"x\ny\nx\n"), output: b"y\n1\n3\n", ends: Ok(3) },
    Row { script: b"/[0-9]$/,/^b/p\n/^b/-1,?c?=\n.=\nQ\n", file: Some(b"a1\nb2\nc\n"), output: b"a1\nb2\n3\n2\n", ends: Ok(3) },
    Row { script: b"/^$/=\n/./=\n/\xff/=\n.=\nQ\n", file: Some(b"\0\n\xff\n\n"), output: b"3\n1\n2\n3\n", ends: Ok(3) },
];

// The commands that enter, move, copy, join and show lines.
#[rattlefmt::skip]
static LINE_COMMANDS: [Row; 37] = [
    Row { script: b"2,4m4\n", file: Some(FIVE), output: b"?\n", ends: Err(Fault::Destination) },
    Row { script: b"2,4m3\n", file: Some(FIVE), output: b"?\n", ends: Err(Fault::Destination) },
    Row { script: b"2,4m1\n.=\nQ\n", file: Some(FIVE), output: b"4\n", ends: Ok(5) },
    Row { script: b"1m$\n", file: Some(b"x\n"), output: b"?\n", ends: Err(Fault::Destination) },
    Row { script: b"0i\nx\n.\n,p\nQ\n", file: Some(b""), output: b"x\n", ends: Ok(1) },
    Row { script: b"0c\n", file: Some(b""), output: b"?\n", ends: Err(Fault::Address) },
    Row { script: b"1,2t$\n1,3j\n,p\nQ\n", file: ABC, output: b"abc\na\nb\n", ends: Ok(3) },
    Row { script: b"1ka\n1m$\n'a=\nQ\n", file: ABC, output: b"3\n", ends: Ok(3) },
    Row { script: b"l\nQ\n", file: Some(b"a\t\\$\xc3\n"), output: b"a\\t\\\\\\$\\303$\n", ends: Ok(1) },
    Row { script: b"l\nQ\n", file: EIGHTY, output: b"aaaaaaaaaaaaaaaaaaaaaaaaaaaaaaaaaaaaaaaaaaaaaaaaaaaaaaaaaaaaaaaaaaaaaaa\\\naaaaaaaaa$\n", ends: Ok(1) },
    Row { script: b"1dp\n", file: Some(b"x\n"), output: b"?\n", ends: Err(Fault::Address) },
    Row { script: b"1,1j\n2j\n,p\nQ\n", file: Some(b"a\nb\n"), output: b"a\nb\n", ends: Ok(2) },
    Row { script: b"1c\n.\n.=\nQ\n", file: Some(b"a\nb\n"), output: b"1\n", ends: Ok(1) },
    Row { script: b"2lp\nQ\n", file: ABC, output: b"b$\nb\n", ends: Ok(3) },
    Row { script: b"=p\n", file: Some(b""), output: b"?\n", ends: Err(Fault::Address) },
    Row { script: b"Hp\n", file: Some(b""), output: b"?\n", ends: Err(Fault::Address) },
    Row { script: b"0i\n.\n.=\nQ\n", file: ABC, output: b"1\n", ends: Ok(3) },
    Row { script: b"1m3 p\n", file: ABC, output: b"?\n", ends: Err(Fault::Syntax) },
    Row { script: b"1m3p\nQ\n", file: ABC, output: b"a\n", ends: Ok(3) },
    Row { script: b"2,4m1\n.=\n,p\n.=\nQ\n", file: Some(FIVE), output: b"4\n1\n2\n3\n4\n5\n5\n", ends: Ok(5) },
    Row { script: b"1,2m4p\n4,5m0\n,p\n.=\nQ\n", file: Some(FIVE), output: b"2\n2\n5\n3\n4\n1\n5\n", ends: Ok(5) },
    Row { script: b"1m$\n", file: Some(b"a\n"), output: b"?\n", ends: Err(Fault::Destination) },
    Row { script: b"1,2t$\n,p\n1,3j\n.=\n,n\n.=\nQ\n", file: ABC, output: b"a\nb\nc\na\nb\n1\n1\tabc\n2\ta\n3\tb\n3\n", ends: Ok(3) },
    Row { script: b"1ka\n1m$\n'a=\n1t0\n'a=\n.=\nQ\n", file: ABC, output: b"3\n4\n1\n", ends: Ok(4) },
    Row { script: b"0i\nx\n.\n=\n.=\nQ\n", file: Some(b""), output: b"1\n1\n", ends: Ok(1) },
    Row { script: b"0c\nx\n.\n", file: Some(b""), output: b"?\n", ends: Err(Fault::Address) },
    Row { script: b"0,2c\nx\ny\nz\n.\np\n2i\nw\n.\n,n\n.=\nQ\n", file: ABC, output: b"z\n1\tx\n2\tw\n3\ty\n4\tz\n5\tc\n5\n", ends: Ok(5) },
    // A target is evaluated before the order of the lines is looked at.
    Row { script: b"3,1m/z/\n", file: ABC, output: b"?\n", ends: Err(Fault::NoMatch) },
    Row { script: b"l\nh\nH\n1j\n.=\nQ\n", file: Some(b"a\t$\n"), output: b"a\\t\\$$\n1\n", ends: Ok(1) },
    Row { script: b"l\n", file: Some(b"\x07\x08\t\x0b\x0c\r\n"), output: b"\\a\\b\\t\\v\\f\\r$\n", ends: Ok(1) },
    Row { script: b"l\n", file: Some(b"\0\x1b\x7f\x80\xff\n"), output: b"\\000\\033\\177\\200\\377$\n", ends: Ok(1) },
    Row { script: b"l\n", file: Some(b" ~\n"), output: b" ~$\n", ends: Ok(1) },
    Row { script: b"1m/b/p\n,p\nQ\n", file: ABC, output: b"a\nb\na\nc\n", ends: Ok(3) },
    Row { script: b"1m/b\n,p\nQ\n", file: ABC, output: b"b\na\nc\n", ends: Ok(3) },
    Row { script: b"1kpp\n'p=\n", file: ABC, output: b"c\n1\n", ends: Ok(3) },
    Row { script: b"an\nx\n\n.\nQ\n", file: ABC, output: b"5\t\n", ends: Ok(5) },
    Row { script: b"1c\nx\n.\n,p\nQ\n", file: ABC, output: b"x\nb\nc\n", ends: Ok(3) },
];

#[test]
fn runs_write_and_end_as_the_standard_says(rt: HostRuntime) {
    check_each(&rt, rt.alloc(), &COMMANDS);
}

#[test]
fn addresses_are_the_lines_that_the_standard_says(rt: HostRuntime) {
    check_each(&rt, rt.alloc(), &ADDRESSES);
}

#[test]
fn searches_find_the_lines_that_the_standard_says(rt: HostRuntime) {
    check_each(&rt, rt.alloc(), &SEARCHES);
}

#[test]
fn lines_are_entered_moved_joined_and_shown_as_the_standard_says(rt: HostRuntime) {
    check_each(&rt, rt.alloc(), &LINE_COMMANDS);
}

struct PromptRow {
    script: &'static [u8],
    file: Option<&'static [u8]>,
    prompt: Option<&'static [u8]>,
    output: &'static [u8],
    ends: Result<usize, Fault>,
}

// XCU ed, "Help-Mode Command", "Prompt Command".
#[rattlefmt::skip]
static PROMPTS_AND_HELP: [PromptRow; 9] = [
    PromptRow { script: b"1n\nH\nx\n", file: Some(b"a\nb\n"), prompt: ARROW, output: b"> 1\ta\n> > ?\ninvalid command\n", ends: Err(Fault::Syntax) },
    PromptRow { script: b"P\n", file: ABC, prompt: None, output: b"*", ends: Ok(3) },
    PromptRow { script: b"1p\nP\n2p\nP\n3p\n", file: ABC, prompt: ARROW, output: b"> a\n> b\n> c\n> ", ends: Ok(3) },
    PromptRow { script: b"1p\n2p\n", file: ABC, prompt: Some(b""), output: b"a\nb\n", ends: Ok(3) },
    PromptRow { script: b"a\nx\n", file: Some(b""), prompt: ARROW, output: b"> > ?\n", ends: Err(Fault::Unsaved) },
    PromptRow { script: b"H\nH\n9p\n", file: ABC, prompt: None, output: b"?\n", ends: Err(Fault::Address) },
    PromptRow { script: b"H\n9p\n", file: ABC, prompt: None, output: b"?\ninvalid address\n", ends: Err(Fault::Address) },
    PromptRow { script: b"H\na\nx\n", file: None, prompt: None, output: b"?\nbuffer modified\n", ends: Err(Fault::Unsaved) },
    PromptRow { script: b"h\n1p\nQ\n", file: ABC, prompt: None, output: b"a\n", ends: Ok(3) },
];

// XCU ed, "Options": without `-s` the bytes of the start file are counted. One that is missing has no count.
#[rattlefmt::skip]
static COUNTS: [Row; 3] = [
    Row { script: b"1p\nQ\n", file: ABC, output: b"6\na\n", ends: Ok(3) },
    Row { script: b"$p\nQ\n", file: Some(b"a\nb"), output: b"3\nb\n", ends: Ok(2) },
    Row { script: b"Q\n", file: None, output: b"", ends: Ok(0) },
];

#[test]
fn the_bytes_of_the_start_file_are_counted(rt: HostRuntime) {
    for row in &COUNTS {
        let case = Case {
            silent: false,
            ..row.case()
        };
        check(&rt, rt.alloc(), case, row.output, row.ends);
    }
}

#[test]
fn prompts_and_help_come_where_the_standard_says(rt: HostRuntime) {
    for row in &PROMPTS_AND_HELP {
        let case = Case {
            script: row.script,
            file: row.file,
            prompt: row.prompt,
            ..UNREFUSED
        };
        check(&rt, rt.alloc(), case, row.output, row.ends);
    }
}
