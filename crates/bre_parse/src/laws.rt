//! Laws of readings, ways and matches, each the contract of a function that does nothing.

ghost use Rattle.bre_parse.specs.Laws.{EndsIgnoreGroups, OrderKeepsFirst, WaysEndWithin, MatchesLieWithin, LiteralsMatchThemselves, BlockedStarts, UntouchedStands, UntouchedHasNone, HeadIsAsked, HeadsAreMatched, ClashingHeadsMatchNothing, WordsMatchThemselves, ApartWordsDoNotMeet, ElementsIgnoreCount, RepeatsIgnoreCount, ItemsIgnoreCount, WaysIgnoreCount};

/// Without back-references the ends of a part's ways don't depend on the groups.
#[tactic(auto, using(crate::proofs::SameEnds::ends_ignore_groups))]
pub fn ends_ignore_groups()
    ensures law { EndsIgnoreGroups }
{}

/// Putting ways in order of their ends doesn't change which way to an end is the first.
#[tactic(auto, using(crate::proofs::SameEnds::order_keeps_first))]
pub fn order_keeps_first()
    ensures law { OrderKeepsFirst }
{}

/// Each way of a part ends at its place or later, and within the text.
#[tactic(auto, using(crate::proofs::Within::ways_end_within))]
pub fn ways_end_within()
    ensures law { WaysEndWithin }
{}

/// A match lies at its place or later and within the text, and its groups lie within it.
pub fn matches_lie_within()
    ensures law { MatchesLieWithin }
{}

/// A literal pattern matches its word and nothing else.
pub fn literals_match_themselves()
    ensures law { LiteralsMatchThemselves }
{}

/// The counts that make reading end don't limit it: greater ones give the same reading of each text.
pub fn readings_ignore_counts()
    ensures elements { ElementsIgnoreCount }
    ensures repeats { RepeatsIgnoreCount }
    ensures items { ItemsIgnoreCount }
{}

/// The count of turns is no limit: a greater one gives a repeat the same ways.
pub fn ways_ignore_count()
    ensures law { WaysIgnoreCount }
{}

/// What a head tells of each text that begins with it: where no match starts, and whether a pattern matches.
#[tactic(auto, using(crate::proofs::TextHeadLaws::blocked_starts, crate::proofs::TextHeadLaws::untouched_stands, crate::proofs::TextHeadLaws::untouched_has_none, crate::proofs::TextHeadLaws::head_is_asked, crate::proofs::TextHeadLaws::heads_are_matched, crate::proofs::TextHeadLaws::clashing_heads_match_nothing))]
pub fn heads_tell()
    ensures blocked { BlockedStarts }
    ensures untouched { UntouchedStands }
    ensures none { UntouchedHasNone }
    ensures asked { HeadIsAsked }
    ensures matched { HeadsAreMatched }
    ensures clashing { ClashingHeadsMatchNothing }
{}

/// A word between anchors matches itself alone, and two words that are apart share no byte of a text.
#[tactic(auto, using(crate::proofs::WordLaws::words_match_themselves, crate::proofs::WordLaws::apart_words_do_not_meet))]
pub fn words_match_themselves()
    ensures ways { WordsMatchThemselves }
    ensures apart { ApartWordsDoNotMeet }
{}
