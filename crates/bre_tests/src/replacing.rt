//! What stays of a text where matches of a pattern are replaced, whatever is put in. Worked out by hand.

use crate::matching::pattern;
use std::test::Fail;

struct Head {
    pattern: &'static [u8],
    /// The bytes with which a text begins.
    head: &'static [u8],
    /// Those of them that no replacement of matches changes.
    untouched: &'static [u8],
    /// Whether the pattern matches each text with this head, and whether it matches none.
    matches: bool,
    clashes: bool,
}

#[rattlefmt::skip]
static HEADS: [Head; 23] = [
    // The first byte of a match is looked for, and those after it up to the end of the head.
    Head { pattern: b"22", head: b"Port", untouched: b"Port", matches: false, clashes: false },
    Head { pattern: b"t2", head: b"Port", untouched: b"Por", matches: false, clashes: false },
    Head { pattern: b"o", head: b"Port", untouched: b"P", matches: false, clashes: false },
    Head { pattern: b"Po", head: b"Port", untouched: b"", matches: false, clashes: false },
    Head { pattern: b"[^P]o", head: b"Port", untouched: b"Por", matches: false, clashes: false },
    // Only a pattern with `^` is told to match or not to.
    Head { pattern: b"Port", head: b"Port", untouched: b"", matches: false, clashes: false },
    Head { pattern: b"x", head: b"Port", untouched: b"Port", matches: false, clashes: false },
    Head { pattern: b"", head: b"Port", untouched: b"", matches: false, clashes: false },
    Head { pattern: b"^", head: b"Port", untouched: b"", matches: true, clashes: false },
    Head { pattern: b"^P", head: b"Port", untouched: b"", matches: true, clashes: false },
    Head { pattern: b"^Port", head: b"Port", untouched: b"", matches: true, clashes: false },
    Head { pattern: b"^Port", head: b"Po", untouched: b"", matches: false, clashes: false },
    Head { pattern: b"^o", head: b"Port", untouched: b"Port", matches: false, clashes: true },
    Head { pattern: b"^x*o", head: b"Port", untouched: b"Port", matches: false, clashes: true },
    Head { pattern: b"^P.", head: b"Port", untouched: b"", matches: false, clashes: false },
    Head { pattern: b"^[Pp]o", head: b"Port", untouched: b"", matches: false, clashes: false },
    // The end of the text comes after the head.
    Head { pattern: b"$", head: b"Port", untouched: b"Port", matches: false, clashes: false },
    // What may take no byte is passed over; of other repeats and of groups nothing is told.
    Head { pattern: b"x*", head: b"Port", untouched: b"", matches: false, clashes: false },
    Head { pattern: b"x*o", head: b"Port", untouched: b"P", matches: false, clashes: false },
    Head { pattern: b"P*o", head: b"Port", untouched: b"", matches: false, clashes: false },
    Head { pattern: b"x\\{1,\\}o", head: b"Port", untouched: b"", matches: false, clashes: false },
    Head { pattern: b"\\(x\\)", head: b"Port", untouched: b"", matches: false, clashes: false },
    Head { pattern: b"^\\(x\\)", head: b"Port", untouched: b"", matches: false, clashes: false },
];

#[test]
fn the_head_of_a_text_stays(rt: HostRuntime) -> Result<(), Fail> {
    for row in &HEADS {
        let bre = pattern(rt.alloc(), row.pattern)?;
        assert_eq!(rt;
            bre.untouched(row.head),
            row.untouched,
            "{:?} on {:?}",
            row.pattern,
            row.head
        );
        assert_eq!(rt;
            bre.matches_head(row.head),
            row.matches,
            "{:?} on {:?}",
            row.pattern,
            row.head
        );
        assert_eq!(rt;
            bre.clashes_with_head(row.head),
            row.clashes,
            "{:?} on {:?}",
            row.pattern,
            row.head
        );
    }
    Ok(())
}

struct Asked {
    pattern: &'static [u8],
    /// The bytes with which each text begins that the pattern matches, as far as they are told.
    head: &'static [u8],
}

#[rattlefmt::skip]
static ASKED: [Asked; 12] = [
    Asked { pattern: b"^Port", head: b"Port" },
    Asked { pattern: b"^Port.*", head: b"Port" },
    Asked { pattern: b"^ab$", head: b"ab" },
    Asked { pattern: b"^\\*[a]b", head: b"*ab" },
    Asked { pattern: b"^a[ab]c", head: b"a" },
    Asked { pattern: b"^[ab]c", head: b"" },
    Asked { pattern: b"^[a-b]c", head: b"" },
    Asked { pattern: b"^[^a]c", head: b"" },
    Asked { pattern: b"^a*b", head: b"" },
    Asked { pattern: b"^", head: b"" },
    Asked { pattern: b"Port", head: b"" },
    Asked { pattern: b"", head: b"" },
];

#[test]
fn a_pattern_tells_with_what_its_texts_begin(rt: HostRuntime) -> Result<(), Fail> {
    for row in &ASKED {
        let head = pattern(rt.alloc(), row.pattern)?.head_asked()?;
        assert_eq!(rt; head.as_slice(), row.head, "{:?}", row.pattern);
    }
    Ok(())
}

struct Word {
    replaced: &'static [u8],
    pattern: &'static [u8],
    /// Whether the pattern matches each text that it matched, where matches of the other are replaced.
    stays: bool,
}

#[rattlefmt::skip]
static WORDS: [Word; 20] = [
    // A word stays where what is replaced has no byte of it, or no byte at all.
    Word { replaced: b"#", pattern: b"localhost", stays: true },
    Word { replaced: b"^#", pattern: b"localhost", stays: true },
    Word { replaced: b"xyz", pattern: b"localhost", stays: true },
    Word { replaced: b"^", pattern: b"localhost", stays: true },
    Word { replaced: b"$", pattern: b"localhost", stays: true },
    Word { replaced: b"^#", pattern: b"localhost$", stays: true },
    // Within it, over its ends, and around it.
    Word { replaced: b"cal", pattern: b"localhost", stays: false },
    Word { replaced: b"ho", pattern: b"localhost", stays: false },
    Word { replaced: b"xlo", pattern: b"localhost", stays: false },
    Word { replaced: b"stx", pattern: b"localhost", stays: false },
    Word { replaced: b"a localhost", pattern: b"localhost", stays: false },
    // The empty pattern matches within the word.
    Word { replaced: b"", pattern: b"localhost", stays: false },
    // What is no word takes bytes that aren't told.
    Word { replaced: b"x.", pattern: b"localhost", stays: false },
    Word { replaced: b"x*", pattern: b"localhost", stays: false },
    // At the ends of the text something may come in.
    Word { replaced: b"$", pattern: b"localhost$", stays: false },
    Word { replaced: b"x$", pattern: b"localhost$", stays: false },
    Word { replaced: b"^", pattern: b"^localhost", stays: false },
    Word { replaced: b"#", pattern: b"^localhost", stays: false },
    // Of another pattern nothing is told.
    Word { replaced: b"#", pattern: b"local.", stays: false },
    Word { replaced: b"#", pattern: b"[lx]ocal", stays: false },
];

#[test]
fn a_word_stays_where_another_is_replaced(rt: HostRuntime) -> Result<(), Fail> {
    for row in &WORDS {
        let replaced = pattern(rt.alloc(), row.replaced)?;
        let stays = pattern(rt.alloc(), row.pattern)?.keeps_word(&replaced)?;
        assert_eq!(rt;
            stays,
            row.stays,
            "{:?} for {:?}",
            row.pattern, row.replaced
        );
    }
    Ok(())
}
