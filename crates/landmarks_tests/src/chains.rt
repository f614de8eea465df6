//! Chains as people write them. To be run with each allocation refused in turn (`rt try --test --fail-alloc N`): the answer is the chain, or
//! want of memory.

use crate::written::{Mark, Named, chain_of, mark};
use landmarks::{ChainFault, read_chain};
use std::alloc::AllocError;
use std::test::Fail;

/// A text, and the landmarks that it spells.
#[derive(Drop)]
struct Row {
    text: &'static [u8],
    chain: &'static [Mark],
}

#[rattlefmt::skip]
static ROWS: [Row; 33] = [
    Row { text: b"/^Port/", chain: &[mark!(Named::First(b"^Port"))] },
    Row { text: b"/^Port/ & /22/", chain: &[mark!(Named::First(b"^Port"), also &[b"22"], lacks &[])] },
    Row { text: b"only /^Name: bob/ tail 3", chain: &[mark!(Named::Only(b"^Name: bob"), gap 1, tail 3)] },
    Row { text: b"/# BEGIN/; only /# END/ gap 2", chain: &[mark!(Named::First(b"# BEGIN")), mark!(Named::Only(b"# END"), gap 2, tail 0)] },
    Row { text: b"1 & /python$/", chain: &[mark!(Named::Numbered(1), also &[b"python$"], lacks &[])] },
    Row { text: b"no /^UUID=/ /ext4/ & not /noauto/", chain: &[
        mark!(Named::First(b"ext4"), none &[b"^UUID="], gap 1, tail 0, also &[], lacks &[b"noauto"])] },
    // A delimiter after a backslash is itself; a vertical line leaves the backslash of a slash where it is.
    Row { text: b"|a\\/b|", chain: &[mark!(Named::First(b"a\\/b"))] },
    Row { text: b"/a\\/b/", chain: &[mark!(Named::First(b"a/b"))] },
    Row { text: b"|a\\|b|", chain: &[mark!(Named::First(b"a|b"))] },
    Row { text: b"/a|b/", chain: &[mark!(Named::First(b"a|b"))] },
    Row { text: b"|a/b|", chain: &[mark!(Named::First(b"a/b"))] },
    Row { text: b"/\\\\/", chain: &[mark!(Named::First(b"\\\\"))] },
    // A bracket expression keeps all that is in it.
    Row { text: b"/[/]/", chain: &[mark!(Named::First(b"[/]"))] },
    Row { text: b"/[]/]x/", chain: &[mark!(Named::First(b"[]/]x"))] },
    Row { text: b"/[[:alpha:]/]/", chain: &[mark!(Named::First(b"[[:alpha:]/]"))] },
    Row { text: b"/[\\/]/", chain: &[mark!(Named::First(b"[\\/]"))] },
    // Words and signs within a pattern are its own.
    Row { text: b"/a; b & not c gap 2!/", chain: &[mark!(Named::First(b"a; b & not c gap 2!"))] },
    // Blanks may stand around each part, and none has to.
    Row { text: b" \t/a/ \t", chain: &[mark!(Named::First(b"a"))] },
    Row { text: b"no/x/only/a/gap 2tail 3&/b/&not/c/;2", chain: &[
        mark!(Named::Only(b"a"), none &[b"x"], gap 2, tail 3, also &[b"b"], lacks &[b"c"]), mark!(Named::Numbered(2))] },
    Row { text: b"\tno\t/x/ only\t/a/\tgap\t2\ttail\t3\t&\t/b/\t&\tnot\t/c/\t;\t2", chain: &[
        mark!(Named::Only(b"a"), none &[b"x"], gap 2, tail 3, also &[b"b"], lacks &[b"c"]), mark!(Named::Numbered(2))] },
    // Numbers of one to nine digits.
    Row { text: b"999999999", chain: &[mark!(Named::Numbered(999999999))] },
    Row { text: b"007", chain: &[mark!(Named::Numbered(7))] },
    Row { text: b"1;2;3", chain: &[mark!(Named::Numbered(1)), mark!(Named::Numbered(2)), mark!(Named::Numbered(3))] },
    Row { text: b"/a/ gap 1", chain: &[mark!(Named::First(b"a"))] },
    Row { text: b"/a/ tail 000000001", chain: &[mark!(Named::First(b"a"), gap 1, tail 1)] },
    // The patterns of a list are a set.
    Row { text: b"no /b/ no /a/ no /b/ /c/", chain: &[mark!(Named::First(b"c"), none &[b"a", b"b"])] },
    Row { text: b"/a/ & /c/ & not /e/ & /b/ & not /d/ & /c/", chain: &[mark!(Named::First(b"a"), also &[b"b", b"c"], lacks &[b"d", b"e"])] },
    // A pattern may be looked for and asked for, and one that matches each line may be asked for.
    Row { text: b"/a/ & /a/ & /x*/", chain: &[mark!(Named::First(b"a"), also &[b"a", b"x*"], lacks &[])] },
    Row { text: b"no /a/ /a/; /a/", chain: &[mark!(Named::First(b"a"), none &[b"a"]), mark!(Named::First(b"a"))] },
    // What each line matches may be looked for, and lacking between, where no line has to stand between.
    Row { text: b"/x*/ tail 2", chain: &[mark!(Named::First(b"x*"), gap 1, tail 2)] },
    Row { text: b"2; no /x*/ 3", chain: &[mark!(Named::Numbered(2)), mark!(Named::Numbered(3), none &[b"x*"])] },
    Row { text: b"/a/ gap 2 & /x*/", chain: &[mark!(Named::First(b"a"), none &[], gap 2, tail 0, also &[b"x*"], lacks &[])] },
    // A line that is matched in one landmark may be lacking in another.
    Row { text: b"/a/ & not /b/; /b/ & not /a/", chain: &[
        mark!(Named::First(b"a"), also &[], lacks &[b"b"]), mark!(Named::First(b"b"), also &[], lacks &[b"a"])] },
];

#[test]
fn chains_are_read_as_they_are_spelled(rt: HostRuntime) -> Result<(), Fail> {
    for row in &ROWS {
        let wanted = chain_of(rt.alloc(), row.chain)?;
        match read_chain(rt.alloc(), row.text) {
            Ok(chain) => assert_eq!(rt; chain.as_slice(), wanted.as_slice(), "{:?}", row.text),
            Err(ChainFault::Memory) => return Err(Fail::from(AllocError)),
            Err(fault) => {
                assert!(rt; false, "{:?}: {fault:?}", row.text);
            }
        }
    }
    Ok(())
}
