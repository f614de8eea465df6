//! Chains as they are written. To be run with each allocation refused in turn (`rt try --test --fail-alloc N`): the answer is the text, or
//! want of memory.

use crate::written::{Mark, Named, chain_of, mark};
use landmarks::write_chain;
use std::test::Fail;

/// Landmarks, and the text that is written of them.
#[derive(Drop)]
struct Row {
    chain: &'static [Mark],
    text: &'static [u8],
}

#[rattlefmt::skip]
static ROWS: [Row; 21] = [
    Row { chain: &[mark!(Named::First(b"^Port"))], text: b"/^Port/" },
    Row { chain: &[mark!(Named::First(b"^Port"), also &[b"22"], lacks &[])], text: b"/^Port/ & /22/" },
    Row { chain: &[mark!(Named::Only(b"^Name: bob"), gap 1, tail 3)], text: b"only /^Name: bob/ tail 3" },
    Row { chain: &[mark!(Named::First(b"# BEGIN")), mark!(Named::Only(b"# END"), gap 2, tail 0)], text: b"/# BEGIN/; only /# END/ gap 2" },
    Row { chain: &[mark!(Named::Numbered(1), also &[b"python$"], lacks &[])], text: b"1 & /python$/" },
    Row { chain: &[mark!(Named::First(b"ext4"), none &[b"^UUID="], gap 1, tail 0, also &[], lacks &[b"noauto"])],
        text: b"no /^UUID=/ /ext4/ & not /noauto/" },
    Row { chain: &[mark!(Named::Numbered(1)), mark!(Named::Numbered(2)), mark!(Named::Numbered(3))], text: b"1; 2; 3" },
    Row { chain: &[mark!(Named::Numbered(999999999), gap 999999999, tail 999999999)], text: b"999999999 gap 999999999 tail 999999999" },
    // A slash gets a backslash outside bracket expressions.
    Row { chain: &[mark!(Named::First(b"a/b"))], text: b"/a\\/b/" },
    Row { chain: &[mark!(Named::First(b"[/]/"))], text: b"/[/]\\//" },
    Row { chain: &[mark!(Named::First(b"[]/]x"))], text: b"/[]/]x/" },
    Row { chain: &[mark!(Named::First(b"[[:alpha:]/]"))], text: b"/[[:alpha:]/]/" },
    Row { chain: &[mark!(Named::First(b"a|b\\\\"))], text: b"/a|b\\\\/" },
    // One that has a backslash in the pattern can't stand between slashes; then it is the vertical line that gets one.
    Row { chain: &[mark!(Named::First(b"a\\/b"))], text: b"|a\\/b|" },
    Row { chain: &[mark!(Named::First(b"a/b|c\\/[|]"))], text: b"|a/b\\|c\\/[|]|" },
    Row { chain: &[mark!(Named::Numbered(7), also &[b"a/b", b"\\/"], lacks &[])], text: b"7 & |\\/| & /a\\/b/" },
    // Sets rise, each pattern once.
    Row { chain: &[mark!(Named::First(b"c"), none &[b"b", b"a", b"b"])], text: b"no /a/ no /b/ /c/" },
    Row { chain: &[mark!(Named::First(b"a"), also &[b"c", b"b"], lacks &[b"e", b"d"])], text: b"/a/ & /b/ & /c/ & not /d/ & not /e/" },
    Row { chain: &[mark!(Named::Only(b"a"), none &[b"x"], gap 2, tail 3, also &[b"b"], lacks &[b"c"]), mark!(Named::Numbered(2))],
        text: b"no /x/ only /a/ gap 2 tail 3 & /b/ & not /c/; 2" },
    // Words and signs within a pattern are its own.
    Row { chain: &[mark!(Named::First(b"a; b & not c gap 2!"))], text: b"/a; b & not c gap 2!/" },
    Row { chain: &[mark!(Named::First(b" \t"))], text: b"/ \t/" },
];

/// What no text spells.
#[rattlefmt::skip]
static NOTHING: [&'static [Mark]; 20] = [
    &[],
    // Numbers that aren't from 1 to 999999999, a tail of 0 aside.
    &[mark!(Named::Numbered(0))],
    &[mark!(Named::Numbered(1000000000))],
    &[mark!(Named::First(b"a"), gap 0, tail 0)],
    &[mark!(Named::First(b"a"), gap 1000000000, tail 0)],
    &[mark!(Named::First(b"a"), gap 1, tail 1000000000)],
    // What is no pattern, or isn't on one line.
    &[mark!(Named::First(b""))],
    &[mark!(Named::Only(b"\\("))],
    &[mark!(Named::First(b"["))],
    &[mark!(Named::First(b"a\\"))],
    &[mark!(Named::First(b"a\\|b"))],
    &[mark!(Named::First(b"\\n"))],
    &[mark!(Named::First(b"a\nb"))],
    &[mark!(Named::Numbered(1), also &[b""], lacks &[])],
    // No line can be that.
    &[mark!(Named::First(b"a"), also &[], lacks &[b"a"])],
    &[mark!(Named::Numbered(1), also &[], lacks &[b"x*"])],
    &[mark!(Named::First(b"x*"), gap 2, tail 0)],
    &[mark!(Named::Numbered(1)), mark!(Named::Only(b"^"), gap 3, tail 0)],
    &[mark!(Named::Numbered(9), none &[b"a", b"x*"], gap 2, tail 0, also &[], lacks &[])],
    // A chain is spelled whole or not at all.
    &[mark!(Named::First(b"a")), mark!(Named::Numbered(0))],
];

#[test]
fn chains_are_written(rt: HostRuntime) -> Result<(), Fail> {
    for row in &ROWS {
        let chain = chain_of(rt.alloc(), row.chain)?;
        let written = write_chain(rt.alloc(), chain.as_slice())?;
        match written {
            Some(text) => assert_eq!(rt; text.as_slice(), row.text),
            None => assert!(rt; false, "{:?}", row.text),
        }
    }
    Ok(())
}

#[test]
fn what_no_text_spells_is_not_written(rt: HostRuntime) -> Result<(), Fail> {
    for marks in &NOTHING {
        let chain = chain_of(rt.alloc(), marks)?;
        let written = write_chain(rt.alloc(), chain.as_slice())?;
        assert!(rt; written.is_none());
    }
    Ok(())
}
