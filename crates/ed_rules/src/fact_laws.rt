//! Laws about facts of lines: contracts of functions that do nothing.

ghost use Rattle.std.specs.Prelude.{◌≡◌, ◌⊎◌, ℕ, ◌<◌, ◌≤◌, pos, ◌+ℤ◌, ℤ, ◌≤ℤ◌, ◌+◌, ◌-◌, ◌++◌, max, reverse, find, true, List, ◌∷◌, length, All, Some, None, Ok, Bool, false, []};
ghost use Rattle.bre_parse.specs.Tree.{Tree};
ghost use Rattle.bre_parse.specs.Grammar.{pattern};
ghost use Rattle.zones.specs.Zone.{Bounds, Numbers, Holds, updated};
ghost use Rattle.ed_base.specs.Buffer.{Line, plain_line, texts};
ghost use Rattle.ed_syntax.specs.meaning.Values.{matches, matches_line, upwards, searched, lines_forward, lines_backward};
ghost use Rattle.ed_rules.specs.facts.SearchOrder.{IsFoundForward, IsFoundBackward};
ghost use Rattle.ed_syntax.specs.meaning.States as editor;
ghost use Rattle.ed_syntax.specs.meaning.Ranges.{Span};
ghost use Rattle.ed_syntax.specs.meaning.Effects as effects;
ghost use Rattle.ed_rules.specs.Matched.{is_matched};
ghost use Rattle.ed_rules.specs.facts.FoundLines.{Known, is_only, is_witnessed, searched_forward, searched_backward};
ghost use Rattle.ed_base.specs.Parts.{exchanged, carried, between, replaced as replaced_lines};
ghost use Rattle.ed_rules.specs.facts.EditedFacts.{Edit, edited, stays, deletion, changing, joining, appending, inserting};
ghost use Rattle.ed_rules.specs.facts.EditHolds.{IsEdit, Takes, FactsAreLeft};
ghost use Rattle.ed_rules.specs.facts.FoundHolds.{KnownHolds, ReadsPlaces, Finds};
ghost use Rattle.ed_syntax.specs.meaning.SubstitutedLines.{each, made_of};
ghost use Rattle.ed_syntax.specs.declared.replacement.Part.{Part};
ghost use Rattle.ed_syntax.specs.declared.replacement.Which.{Which};
ghost use Rattle.ed_syntax.specs.meaning.Substitution.{taken, picked, rewritten};
ghost use Rattle.ed_rules.specs.facts.RewrittenLine.{left_if};
ghost use Rattle.ed_rules.specs.facts.SubstitutedFacts.{Makes, MakesOfEach, IsSubstituted, substituted_facts};
ghost use Rattle.ed_rules.specs.facts.CarriedFacts.{carried_facts};
ghost use Rattle.ed_rules.specs.facts.CarriedHolds.{IsCarried};
ghost use Rattle.ed_syntax.specs.meaning.Globals.{next_taken};
ghost use Rattle.ed_rules.specs.GlobalSoundness.{FlaggedPass};
ghost use Rattle.ed_rules.specs.facts.OneTurn.{IsTakenOnce};
ghost use Rattle.ed_rules.specs.facts.AssignedFacts.{assigned, moved};
ghost use Rattle.ed_rules.specs.facts.FactOrder.{both_facts, cover_facts};
ghost use Rattle.ed_rules.specs.facts.Facts.{ReadsEnds, Facts, Point, FactsHold, IsClear, IsTold, value_of, at, le, is_clear, told, differ};

/// What a zone with facts says is true of all numbers that the zone and the facts hold of.
pub fn what_facts_say_is_true()
    ensures order { (zone : Bounds) (number : Numbers) (x y : Point) (c : ℤ) → le zone x y c ≡ true → x.name < 32 →
        y.name < 32 →
        Holds zone number → value_of number x ≤ℤ (value_of number y +ℤ c) }
    ensures clear { (zone : Bounds) (facts : Facts) (number : Numbers) (lines : List Line) (x y : Point) (pattern : List ℕ) →
        is_clear zone facts x y pattern ≡ true → x.name < 32 → y.name < 32 → Holds zone number → FactsHold facts number lines →
        IsClear (length lines) (matches_line pattern lines) (value_of number x) (value_of number y) }
    ensures told { (zone : Bounds) (facts : Facts) (number : Numbers) (lines : List Line) (x n : ℕ) (pattern : List ℕ)
        (answer : Bool) →
        told zone facts x pattern ≡ Some answer → x < 32 → Holds zone number → FactsHold facts number lines →
        number x ≡ pos n → 1 ≤ n → n ≤ length lines → matches_line pattern lines n ≡ answer }
    ensures differ { (zone : Bounds) (facts : Facts) (number : Numbers) (lines : List Line) (x y n m : ℕ) →
        differ zone facts x y ≡ true → x < 32 → y < 32 → Holds zone number → FactsHold facts number lines →
        number x ≡ pos n → 1 ≤ n → n ≤ length lines → number y ≡ pos m → 1 ≤ m → m ≤ length lines → n ≡ m →
        ⊥ }
{}

/// What is joined or widened holds wherever either side does, and so does what a zone with facts covers.
pub fn weaker_facts_hold_more()
    ensures both { (one other : Facts) (zone : Bounds) (number : Numbers) (lines : List Line) → FactsHold one number lines →
        FactsHold (both_facts one zone other) number lines }
    ensures both_other { (one other : Facts) (zone : Bounds) (number : Numbers) (lines : List Line) → Holds zone number →
        ReadsEnds number lines → FactsHold other number lines → FactsHold (both_facts one zone other) number lines }
    ensures covers { (weak strong : Facts) (zone : Bounds) (number : Numbers) (lines : List Line) →
        cover_facts weak zone strong ≡ true →
        Holds zone number → ReadsEnds number lines → FactsHold strong number lines → FactsHold weak number lines }
{}

/// Facts are covered by themselves; what is joined or widened is covered by either side, and by all that the first side was covered by. A zone
/// that isn't closed may miss what follows from two steps, so covering isn't an order: of three facts
/// the first may cover the second and the second the third, and the first not the third.
pub fn joined_facts_are_covered()
    ensures same { (facts : Facts) (zone : Bounds) → cover_facts facts zone facts ≡ true }
    ensures both { (one other : Facts) (by zone : Bounds) → cover_facts (both_facts one by other) zone one ≡ true }
    ensures both_other { (one other : Facts) (zone : Bounds) → cover_facts (both_facts one zone other) zone other ≡ true }
    ensures on { (one other : Facts) (by zone : Bounds) (strong : Facts) → cover_facts one zone strong ≡ true →
        cover_facts (both_facts one by other) zone strong ≡ true }
{}

/// What is said of single lines is told by their bytes, whatever marks and flags they have.
pub fn facts_go_by_bytes()
    ensures holds { (facts : Facts) (number : Numbers) (lines others : List Line) → texts lines ≡ texts others →
        FactsHold facts number lines → FactsHold facts number others }
{}

/// The line that a search finds is the first that matches in its order.
pub fn searches_find_the_first()
    ensures forward { (p : ℕ → Bool) (current count n : ℕ) → current ≤ count →
        find p (upwards (current + 1) count ++ upwards 1 current) ≡ Some n → IsFoundForward p current count n }
    ensures backward { (p : ℕ → Bool) (current count n : ℕ) → current ≤ count →
        find p (reverse (upwards 1 (current - 1)) ++ reverse (upwards (max 1 current) count)) ≡ Some n →
        IsFoundBackward p current count n }
{}

/// A search for a pattern that a fact says some line matches finds a line, ahead of the current one or round from the other end, and what
/// the rule says of it is true: where it lies, that it matches, and that no line before it in the search's order does.
pub fn searches_find_what_facts_say()
    ensures some_line { (facts : Facts) (number : Numbers) (lines : List Line) (pattern : List ℕ) → FactsHold facts number lines →
        is_witnessed facts pattern ≡ true → is_matched lines pattern ≡ true }
    ensures forward { (zone : Bounds) (facts : Facts) (number : Numbers) (e : editor.State) (pattern : List ℕ) (x : ℕ) → 3 ≤ x →
        x < 6 →
        Holds zone number → FactsHold facts number e.lines → ReadsPlaces number e.current e.lines → e.current ≤ length e.lines →
        is_matched e.lines pattern ≡ true →
        Finds (searched_forward x pattern zone facts) number x e.lines (searched (Some pattern) (lines_forward e) e) }
    ensures backward { (zone : Bounds) (facts : Facts) (number : Numbers) (e : editor.State) (pattern : List ℕ) (x : ℕ) → 3 ≤ x →
        x < 6 →
        Holds zone number → FactsHold facts number e.lines → ReadsPlaces number e.current e.lines → e.current ≤ length e.lines →
        is_matched e.lines pattern ≡ true →
        Finds (searched_backward x pattern zone facts) number x e.lines (searched (Some pattern) (lines_backward e) e) }
{}

/// After an edit, in which lines give way to new ones, each fact that the rule keeps or makes is true, and a letter that the rule keeps is none of
/// the lines that gave way.
pub fn edited_facts_are_true()
    ensures facts { (zone : Bounds) (facts : Facts) (e : Edit) (kept : List ℕ) (number after : Numbers) (old new : List Line)
        (a b current : ℕ) →
        IsEdit zone facts e kept number after old new a b current → (patterns : List (List ℕ)) →
        FactsHold (edited zone facts e kept patterns) after (exchanged (a - 1) b new old) }
    ensures letters { (zone : Bounds) (facts : Facts) (e : Edit) (number : Numbers) (old : List Line) (a b x k : ℕ) →
        stays zone facts e x ≡ true →
        Holds zone number → FactsHold facts number old → e.from.name < 32 → e.to.name < 32 → value_of number e.from ≡ pos a →
        value_of number e.to ≡ pos b → 1 ≤ a → b ≤ length old → x < 32 → number x ≡ pos k → 1 ≤ k →
        k ≤ length old → (k < a) ⊎ (b < k) }
{}

/// Commands on lines as edits: what their rules say of lines is true of what they leave.
pub fn facts_are_left_by_commands()
    ensures delete { (zone : Bounds) (facts : Facts) (marks : List Bool) (number : Numbers) (e : editor.State) (x : Span) →
        Takes zone facts marks number e x → 1 ≤ x.first → x.first ≤ x.last →
        FactsAreLeft zone facts marks deletion (effects.delete x e).state }
    ensures change { (zone : Bounds) (facts : Facts) (marks : List Bool) (number : Numbers) (e : editor.State) (x : Span) (line : List ℕ)
        (more : List (List ℕ)) → Takes zone facts marks number e x → 1 ≤ x.first → x.first ≤ x.last →
        FactsAreLeft zone facts marks (changing (line ∷ more)) (effects.change (line ∷ more) x e).state }
    ensures append { (zone : Bounds) (facts : Facts) (marks : List Bool) (number : Numbers) (e : editor.State) (x : Span) (line : List ℕ)
        (more : List (List ℕ)) → Takes zone facts marks number e x → x.first ≤ length e.lines →
        FactsAreLeft zone facts marks (appending (line ∷ more)) (effects.append (line ∷ more) x e).state }
    ensures insert { (zone : Bounds) (facts : Facts) (marks : List Bool) (number : Numbers) (e : editor.State) (x : Span) (line : List ℕ)
        (more : List (List ℕ)) → Takes zone facts marks number e x → 1 ≤ x.first → x.first ≤ length e.lines + 1 →
        FactsAreLeft zone facts marks (inserting (line ∷ more)) (effects.insert (line ∷ more) x e).state }

    // `j` puts one line in place of several.
    ensures join { (zone : Bounds) (facts : Facts) (marks : List Bool) (number : Numbers) (e : editor.State) (x : Span)
        (joined : List ℕ) →
        Takes zone facts marks number e x → 1 ≤ x.first → x.first ≤ x.last →
        FactsAreLeft zone facts marks joining (effects.altered (replaced_lines x.first x.last (plain_line joined ∷
        []) e.lines) x.first e).state }
{}

/// A name that becomes another's line takes what is known of it, and one that moves by a number keeps the stretches that only got shorter.
pub fn assigned_facts_are_true()
    ensures assigned { (x y : ℕ) (patterns : List (List ℕ)) (zone : Bounds) (facts : Facts) (number : Numbers) (lines : List Line) →
        x < 32 → y < 32 → (2 ≡ x → ⊥) → Holds zone number → ReadsEnds number lines → FactsHold facts number lines →
        KnownHolds (assigned x y patterns zone facts) (updated number x (number y)) lines }
    ensures moved { (x : ℕ) (c : ℤ) (k : Known) (number : Numbers) (lines : List Line) → x < 32 → (2 ≡ x → ⊥) →
        KnownHolds k number lines →
        (c ≡ pos 0 → ⊥) → KnownHolds (moved x c k) (updated number x (number x +ℤ c)) lines }
{}

/// After `m` each fact that the rule keeps or makes is true.
pub fn carried_facts_are_true()
    ensures facts { (zone : Bounds) (facts : Facts) (kept : List ℕ) (number after : Numbers) (old : List Line) (a b t place : ℕ) →
        IsCarried zone facts kept number after old a b t place → (patterns : List (List ℕ)) →
        FactsHold (carried_facts zone facts kept patterns) after (carried a b place old) }
{}

/// After an `s` over a range, which makes one line of each that it changes, each fact that the rule keeps is true.
pub fn substituted_facts_are_true()
    ensures facts { (f : Makes) (possible spared : List (List ℕ)) → MakesOfEach f possible spared → (zone : Bounds) (facts : Facts)
        (kept : List ℕ) (number after : Numbers) (old : List Line) (a b : ℕ) → IsSubstituted zone facts kept number after old a b →
        (patterns : List (List ℕ)) →
        FactsHold (substituted_facts zone facts possible spared kept patterns) after (replaced_lines a b (each f (between a b old)).0 old) }

    // What `s` makes of a line that its pattern doesn't match is nothing.
    ensures unmatched { (text : List ℕ) (parts : List Part) (choice : Which) (bytes : List ℕ) → matches text bytes ≡ false →
        made_of text parts choice bytes ≡ None }
{}

/// What is known of the line that comes of one by an `s` is true of it, whatever is put in place of the matches, and whichever are replaced: `matched`
/// are patterns that the old line matches.
pub fn rewritten_lines_are_as_told()
    ensures told { (sought : List ℕ) (replaced : Tree) (parts : List Part) (choice : Which) (line : List ℕ) (matched : List (List ℕ))
        (text : List ℕ) (answer : Bool) →
        pattern sought ≡ Ok replaced → All (λ q. matches q line ≡ true) matched → left_if (Some sought) matched text ≡ Some answer →
        matches text (rewritten parts line 0 (picked choice (taken replaced line))) ≡ answer }
{}

/// Where a fact says that one line alone matches the pattern of a `g`, the line that is taken is that one, and no line is left to be taken.
pub fn only_lines_are_taken_once()
    ensures once { (zone : Bounds) (facts : Facts) (number : Numbers) (e f : editor.State) (v : ℕ) (pattern : List ℕ) →
        Holds zone number →
        FactsHold facts number e.lines → ReadsEnds number e.lines → v < 32 →
        IsTold (length e.lines) (matches_line pattern e.lines) (number v) true → is_only zone facts pattern v ≡ true →
        FlaggedPass (matches pattern) e.lines → next_taken e ≡ Some f → IsTakenOnce number v f }
{}
