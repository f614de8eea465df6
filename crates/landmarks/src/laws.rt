//! Laws of places, of chains and of starts.

ghost use Rattle.std.specs.Prelude.{◌≡◌, ◌≤◌, ◌<◌, ℕ, List, length, All};
ghost use Rattle.zones.specs.Zone.{Bounds, Numbers, Holds};
ghost use Rattle.ed_base.specs.Buffer.{Line, texts};
ghost use Rattle.ed_syntax.specs.meaning.Erasure.{AreApart};
ghost use Rattle.ed_rules.specs.facts.Facts.{ReadsEnds};
ghost use Rattle.ed_rules.specs.facts.FoundHolds.{KnownHolds};
ghost use Rattle.landmarks.specs.declared.landmark.Landmark.{Landmark};
ghost use Rattle.landmarks.specs.declared.misplaced.Misplaced.{Misplaced};
ghost use Rattle.landmarks.specs.Places.{AreAt};
ghost use Rattle.landmarks.specs.Misplaced.{IsMisplaced};
ghost use Rattle.landmarks.specs.Spelled.{SpellsChain};
ghost use Rattle.landmarks.specs.Starting.{started};
ghost use Rattle.landmarks.specs.Starts.{AreEachAt, AreNumbered, marks_at, numbers_at, AreMarked};

/// Each landmark of a chain has one place or none: where one isn't where it should be, the chain has no places.
pub fn landmarks_have_one_place()
    ensures one { (lines : List (List ℕ)) (before : ℕ) (chain : List Landmark) (places others : List ℕ) →
        AreAt lines before chain places → AreAt lines before chain others → places ≡ others }
    ensures none { (lines : List (List ℕ)) (chain : List Landmark) (wrong : Misplaced) (places : List ℕ) →
        IsMisplaced lines chain wrong → AreAt lines 0 chain places → ⊥ }
{}

/// A text spells one chain at most, so what is read of it is the only one.
pub fn chains_are_spelled_once()
    ensures unambiguous { (text : List ℕ) (one other : List Landmark) → SpellsChain text one → SpellsChain text other → one ≡ other }
{}

/// Where the landmarks of chains are in a file as they say, all that is known of them at the start is true, by numbers that are their places.
/// Marks and flags of the lines make no difference.
pub fn landmarks_are_where_they_are_said()
    ensures start { (number : Numbers) (file : List (List ℕ)) (lines : List Line) (names : List ℕ) (chains : List (List Landmark))
        (places : List ℕ) (zone : Bounds) → texts lines ≡ file → ReadsEnds number lines → AreEachAt file chains places →
        AreNumbered number names places → Holds zone number → KnownHolds (started names chains zone) number lines }
    ensures inside { (file : List (List ℕ)) (chains : List (List Landmark)) (places : List ℕ) → AreEachAt file chains places →
        All (λ place. (1 ≤ place) × (place ≤ length file)) places }

    // Letters may mark these lines, and then there are such numbers.
    ensures marked { (file : List (List ℕ)) (chains : List (List Landmark)) (letters places : List ℕ) → AreEachAt file chains places →
        length letters ≡ length places → All (λ letter. letter < 26) letters → AreApart (marks_at letters places) →
        AreMarked file letters places (marks_at letters places) (numbers_at letters places (length file)) }
{}
