//! Laws about the rules: contracts of functions that do nothing.

ghost use Rattle.ed_syntax.specs.meaning.States as editor;
ghost use Rattle.ed_rules.specs.declared.state.State.{State};
ghost use Rattle.ed_rules.specs.Choices.{Choice};
ghost use Rattle.ed_rules.specs.States.{start, without_facts};
ghost use Rattle.ed_rules.specs.Formed.{ChoiceIsBytes, IsFormed, IsEnded, MatchesAreFormed, TextsAreBytes, TextsAreFormed, VerbIsBytes};
ghost use Rattle.ed_rules.specs.Matched.{watched};
ghost use Rattle.ed_rules.specs.Order.{join, widen, Covers};
ghost use Rattle.ed_rules.specs.Rules.{step, fault_of};
ghost use Rattle.ed_rules.specs.StandsFor.{StandsFor};
ghost use Rattle.std.specs.Prelude.{◌≡◌, ℕ, negsuc, Bool, false, ◌&&◌, List, [], ◌∷◌, All, Option, Some, IfOk, IfSome};
ghost use Rattle.std.specs.List.{list_all};
ghost use Rattle.zones.specs.Known.{known};
ghost use Rattle.zones.specs.Name as name;
ghost use Rattle.zones.specs.Name.{last_line};
ghost use Rattle.ed_rules.specs.Addresses.{is_always, is_found};
ghost use Rattle.ed_rules.specs.Substituting.{takes_first, is_sure_to_match, is_sure_of_some};
ghost use Rattle.ed_syntax.specs.declared.replacement.Which.{Which};
ghost use Rattle.ed_syntax.specs.Commands.{Verb, Command, Step, Script};
ghost use Rattle.ed_rules.specs.Soundness.{CommandIsSound};
ghost use Rattle.ed_rules.specs.ExactRules.{CommandIsExact, StartIsExact};
ghost use Rattle.ed_rules.specs.Globals.{body_entry, once_entry, loop_end};
ghost use Rattle.ed_rules.specs.GlobalSoundness.{StartIsSound, TurnIsSound, OnceIsSound, EndIsSound, FlagsAreKept, NoFlagsAreKept, TakenHaveFlags, NoneAreLeft};

use ed_syntax::{
    answers_are_asked_for, commands_are_placed, commands_keep_lines, commands_keep_marks,
    flags_change_no_line,
};

/// A command whose needs hold meets no fault, and the state of its rule stands for what it leaves.
pub fn commands_are_sound()
    ensures sound { CommandIsSound }
{
    answers_are_asked_for();
    commands_are_placed();
    commands_keep_marks();
    commands_keep_lines();
}

/// What the rules of a global command say of its parts: its start, a line that is taken, its end. Meanwhile lines that have its flag are
/// some of those that it took, with the bytes that they had; outside lists no line has the flag.
pub fn globals_are_sound()
    ensures start { StartIsSound }
    ensures turn { (verb : Verb) (invariant : State) → TurnIsSound verb invariant (body_entry verb invariant) }
    ensures once { (c : Command) (invariant entry : State) → once_entry c invariant ≡ Some entry → OnceIsSound c invariant entry }
    ensures flags { FlagsAreKept }
    ensures no_flags { NoFlagsAreKept }
    ensures taken { TakenHaveFlags }
    ensures none { NoneAreLeft }
    ensures end { (x : Step) (before invariant : State) →
        EndIsSound x before invariant (loop_end x before invariant) }
{
    commands_are_sound();
    flags_change_no_line();
}

/// Which patterns are watched makes no difference to the needs of a command.
pub fn needs_are_the_same_whatever_is_watched()
    ensures needs { (one other : List (List ℕ)) (c : Command) (s : State) → fault_of (step one c s) ≡ fault_of (step other c s) }
{}

/// What is joined or widened stands for all that either state stands for, and so does what covers a state.
pub fn weaker_states_stand_for_more()
    ensures join { (one other : State) (e : editor.State) → StandsFor one e → StandsFor (join one other) e }
    ensures join_other { (one other : State) (e : editor.State) → StandsFor other e →
        StandsFor (join one other) e }
    ensures widen { (old new : State) (e : editor.State) → StandsFor old e → StandsFor (widen old new) e }
    ensures widen_other { (old new : State) (e : editor.State) → StandsFor new e →
        StandsFor (widen old new) e }
    ensures covers { (weak strong : State) (e : editor.State) → Covers weak strong → StandsFor strong e →
        StandsFor weak e }
{}

/// Each state covers itself, and a join and a widening cover both states and all that the first of them covered. Covering is an order
/// for all that states say, except for what they say of single lines: a fact may follow in two steps from bounds of a zone that isn't
/// closed, and covering takes one step. Where nothing is known of single lines, `without_facts` changes nothing.
pub fn joined_states_are_covered()
    ensures same { (s : State) → Covers s s }
    ensures through { (a b c : State) → Covers a b → Covers b c → Covers (without_facts a) c }
    ensures join { (one other : State) → Covers (join one other) one }
    ensures join_other { (one other : State) → Covers (join one other) other }
    ensures widen { (old new : State) → Covers (widen old new) old }
    ensures widen_other { (old new : State) → Covers (widen old new) new }

    // What covered before a join or a widening covers after it.
    ensures join_on { (one other strong : State) → Covers one strong → Covers (join one other) strong }
    ensures widen_on { (old new strong : State) → Covers old strong → Covers (widen old new) strong }
{}

/// The start is formed, and so is what each rule makes of formed states. At its end it is known that there are at least 0 lines.
pub fn states_stay_formed()
    ensures start { (path : Choice) (min : ℕ) (max : Option ℕ) (has : List (List ℕ)) → ChoiceIsBytes path →
        IsEnded (start path min max has) }
    ensures command { (watched : List (List ℕ)) (c : Command) (s : State) → TextsAreBytes c → IsFormed s →
        IfOk (step watched c s) IsEnded }
    ensures join { (one other : State) → IsFormed one → IsFormed other → IsFormed (join one other) }
    ensures widen { (old new : State) → IsFormed old → IsFormed new → IsFormed (widen old new) }

    // Of a global command: the state in which its list is run, and that after its last line.
    ensures entry { (verb : Verb) (invariant : State) → IsFormed invariant → IsEnded (body_entry verb invariant) }
    ensures once { (c : Command) (invariant : State) → IsFormed invariant → IfSome (once_entry c invariant) IsEnded }
    ensures end { (x : Step) (before invariant : State) → IsFormed before → IsFormed invariant →
        IsEnded (loop_end x before invariant) }
{}

/// Where a state tells the number of lines and what else an exact command looks at, a need fails just where the command meets a fault,
/// and by that fault; else the state after its rule tells as much of what it leaves. So does the start.
pub fn exact_commands_are_exact()
    ensures command { CommandIsExact }
    ensures start { StartIsExact }
{}

/// What states say of matches is formed too: sets of bytes that rise, of earlier lines only where undo may bring some back.
pub fn matches_stay_formed()
    ensures start { (path : Choice) (min : ℕ) (max : Option ℕ) (has : List (List ℕ)) → TextsAreFormed has →
        MatchesAreFormed (start path min max has) }
    ensures command { (watched : List (List ℕ)) (c : Command) (s : State) → TextsAreFormed watched → MatchesAreFormed s →
        IfOk (step watched c s) MatchesAreFormed }
    ensures join { (one other : State) → MatchesAreFormed one → MatchesAreFormed other → MatchesAreFormed (join one other) }
    ensures widen { (old new : State) → MatchesAreFormed old → MatchesAreFormed new → MatchesAreFormed (widen old new) }
    ensures entry { (verb : Verb) (invariant : State) → VerbIsBytes verb → MatchesAreFormed invariant →
        MatchesAreFormed (body_entry verb invariant) }
    ensures once { (c : Command) (invariant : State) → VerbIsBytes c.verb → MatchesAreFormed invariant →
        IfSome (once_entry c invariant) MatchesAreFormed }
    ensures end { (x : Step) (before invariant : State) → MatchesAreFormed before → MatchesAreFormed invariant →
        MatchesAreFormed (loop_end x before invariant) }

    // And so are the patterns that are watched in a script.
    ensures watched { (follows : Bool) (script : Script) (has : List (List ℕ)) →
        All (λ (x : Step). TextsAreBytes x.command × All TextsAreBytes x.list) script.steps → TextsAreFormed has →
        TextsAreFormed (watched follows script has) }
{}

/// Where nothing is known of matches and single lines aren't followed, a search needs what it did in certificates that tell nothing of
/// them.
pub fn searches_are_as_before()
    ensures need { (s : State) (c : Choice) (set : List Choice) → s.matches.has ≡ [] → s.follows ≡ false →
        list_all (is_found s) (c ∷ set) ≡ (known s.zone name.zero last_line (negsuc 0) && list_all is_always (c ∷ set)) }
{}

/// Where single lines aren't followed, `s` is vouched for as in certificates that tell nothing of them: where each line surely matches, or in
/// a list.
pub fn substitutions_are_as_before()
    ensures each { (s : State) (choice : Which) → s.follows ≡ false →
        is_sure_to_match s choice ≡ (list_all is_always s.patterns && takes_first choice) }
    ensures some { (s : State) (choice : Which) → s.follows ≡ false → is_sure_of_some s choice ≡ false }
{}
