//! What undo would bring back, and the buffer before an open global command.
ghost use Rattle.std.specs.Prelude.{◌≡◌, ◌≢◌, ◌+◌, ◌<◌, ◌≤◌, ℕ, List, IfErr, IfOk, IfSome, IsTrue, OnErr, OnOk, drop, length};
ghost use Rattle.ed_base.specs.Buffer.{texts};
ghost use Rattle.ed_base.specs.Parts.{exchanged};
ghost use Rattle.ed_base.specs.declared.fault.Fault.TheVariants.{Memory, Undo};
ghost use Rattle.ed_syntax.specs.meaning.States.{Nothing};
ghost use Rattle.ed_commands.specs.Earlier.{Earlier, GlobalWithin, OwnsLast, Restores, StandsIn, UndoneWithin, closing, earlier_after, earlier_of, kept_lines, kept_of, nothing_earlier, noting, opening_global, texts_before, undoing};

use crate::editor::undoing::{rewind, take_flags};
use ed_base::Fault;
use line_store::{Block, LineStore, Marks};
use std::alloc::{AllocError, Global};
use std::marker::Model;

/// How undo sees a command that is carried out.
#[derive(Clone, Copy, Debug, PartialEq, Eq)]
pub struct Before {
    /// The current line before its addresses were evaluated.
    pub current: usize,
    /// It stands in the list of a global command: undo keeps what it kept.
    pub listed: bool,
}

impl Before {
    /// Where the letters are, for undo to keep. Of a listed command it keeps what it kept, and then it isn't looked where they are.
    pub fn marks<S: LineStore>(self, store: &S) -> Marks
        ensures kept { (earlier : Earlier) → earlier_after self.listed (kept_of self.current result (texts (S.lines store.now))) earlier
            ≡ earlier_after self.listed (kept_lines self.current (S.lines store.now)) earlier }
    {
        if self.listed {
            return Marks::none();
        }
        Marks::of(store)
    }
}

/// What is held of an earlier buffer, beside the texts of its lines.
#[derive(Drop)]
pub struct Held {
    pub current: usize,
    /// Where the letters were.
    pub marks: Marks,
    /// All changes but the first so many came after it.
    pub since: usize,
}

/// What undo would bring back.
#[derive(Drop)]
pub enum Undone {
    /// Before the first change of a buffer.
    Nothing,
    /// The buffer as it is: a global command changed nothing.
    Same,
    Was(Held),
}

/// A global command whose list is run.
#[derive(Drop)]
pub struct OpenGlobal {
    /// The buffer before it.
    pub held: Held,
    /// Its list changed the buffer.
    pub altered: bool,
}

/// What a command did to the lines.
#[derive(Drop)]
pub enum Change {
    /// Lines went out, and others came in at their place.
    Replaced {
        /// The line after which they stood.
        from: usize,
        /// How many lines came in.
        entered: usize,
        /// The lines that went out, in order.
        removed: Block,
    },
    /// Lines went to another place.
    Moved {
        /// The lines after line `from` up to line `to` went there.
        from: usize,
        to: usize,
        /// The line after which they stand now, counted without them.
        place: usize,
    },
}

/// Earlier buffers, as all that changed the lines since. It holds what went out and no copy of what stayed, so that keeping them
/// costs no more than the changes did. Only the texts of the lines are told from the changes: letters are held apart, and no
/// earlier buffer that is brought back has flags.
#[derive(Drop)]
pub struct Past {
    undone: Undone,
    global: Option<OpenGlobal>,
    // First to last.
    changes: Vec<Change>,
}

impl Undone {
    /// Whether no more than so many changes came before the buffer.
    fn is_within(&self, count: usize) -> bool
        ensures within { IsTrue result → UndoneWithin count self.now }
    {
        match self {
            Undone::Was(held) => held.since <= count,
            Undone::Nothing | Undone::Same => true,
        }
    }
}

impl OpenGlobal {
    /// Whether no more than so many changes came before one that is open.
    fn is_within(global: &Option<OpenGlobal>, count: usize) -> bool
        ensures within { IsTrue result → GlobalWithin count global.now }
    {
        match global {
            Some(open) => open.held.since <= count,
            None => true,
        }
    }
}

impl Change {
    /// Whether both are of lines that were replaced at the same place.
    fn is_at_place_of(&self, other: &Change) -> bool {
        match (self, other) {
            (Change::Replaced { from, .. }, Change::Replaced { from: place, .. }) => *from
                == *place,
            _ => false,
        }
    }

    /// Makes one change of this one and a later one. Lines that came in with the first and went out with the second aren't held then.
    /// Where they aren't of one place, or more lines came in than went out, or there is no memory, the later one comes back.
    fn join(&mut self, alloc: Global, later: Change) -> Result<(), Change>
        ensures joined { OnOk result ((now : List (List ℕ)) → StandsIn later now →
            texts_before self.new now ≡ texts_before self.old (texts_before later now)) }
        ensures handed_back { IfErr result (λ back. back ≡ later) }
        ensures kept { OnErr result (self.new ≡ self.old) }
    {
        match self {
            Change::Replaced {
                from,
                entered,
                removed,
            } => join_replaced(alloc, *from, entered, removed, later),
            Change::Moved { .. } => Err(later),
        }
    }

    /// The same change once more, which shares the lines.
    pub fn try_copy(&self, alloc: Global) -> Result<Self, AllocError>
        ensures value { IfOk result (λ copy. copy ≡ self.now) }
    {
        match self {
            Change::Replaced {
                from,
                entered,
                removed,
            } => Ok(Change::Replaced {
                from: *from,
                entered: *entered,
                removed: removed.try_copy(alloc)?,
            }),
            Change::Moved { from, to, place } => Ok(Change::Moved {
                from: *from,
                to: *to,
                place: *place,
            }),
        }
    }
}

impl Model for Past {
    ghost use Rattle.std.specs.Prelude.{◌-◌, length, vec_capacity, vec_len};
    ghost use Rattle.ed_commands.specs.Earlier.{GlobalWithin, PastValue, UndoneWithin};

    ghost Value = { PastValue };

    ghost view = { λ p. record { undone = p.undone; global = p.global; changes = p.changes.items; room = vec_capacity p.changes - vec_len p.changes } };

    ghost invariant = { λ p. UndoneWithin (length p.changes.items) p.undone × GlobalWithin (length p.changes.items) p.global };
}

impl Past {
    /// Nothing to bring back. It takes no memory.
    #[tactic(auto, unfolding(crate::specs::Earlier::earlier_of))]
    pub fn nothing(alloc: Global) -> Self
        ensures value { (now : List (List ℕ)) → earlier_of result now ≡ nothing_earlier }
    {
        Past {
            undone: Undone::Nothing,
            global: None,
            changes: Vec::new(alloc),
        }
    }

    /// Makes room for one more change.
    #[tactic(auto, unfolding(crate::specs::Earlier::earlier_of))]
    pub fn reserve(&mut self) -> Result<(), AllocError>
        ensures room { OnOk result (0 < self.new.room) }
        ensures unchanged { (now : List (List ℕ)) → earlier_of self.new now ≡ earlier_of self.old now }
    {
        self.changes.reserve(1)
    }

    /// From here on the changes are those of a command, before which these were the lines: what there was then is kept; of a listed
    /// command, what was kept, and then it isn't looked where the letters are. A global command that is open knows of the change.
    pub fn begin<S: LineStore>(&mut self, before: Before, store: &S)
        ensures kept { let now = texts (S.lines store.now) in
            earlier_of self.new now ≡ earlier_after before.listed (kept_lines before.current (S.lines store.now)) (earlier_of self.old now) }
        ensures keeps_room { 0 < self.old.room → 0 < self.new.room }
    {
        if before.listed {
            self.note();
        } else {
            self.begin_with(before, Marks::of(store));
        }
    }

    /// The same, where the letters were at `marks`, which aren't looked at for a listed command.
    pub fn begin_with(&mut self, before: Before, marks: Marks)
        ensures kept { (now : List (List ℕ)) →
            earlier_of self.new now ≡ earlier_after before.listed (kept_of before.current marks now) (earlier_of self.old now) }
        ensures keeps_room { 0 < self.old.room → 0 < self.new.room }
    {
        if !before.listed {
            self.hold(before.current, marks);
        }
        self.note();
    }

    /// A global command that is open knows of a change.
    #[tactic(auto, unfolding(crate::specs::Earlier::earlier_of))]
    fn note(&mut self)
        ensures noted { (now : List (List ℕ)) → earlier_of self.new now ≡ noting (earlier_of self.old now) }
        ensures keeps_room { self.old.room ≤ self.new.room }
    {
        if let Some(open) = &mut self.global {
            open.altered = true;
        }
    }

    /// The buffer as it is will be brought back. Changes before it are still asked for only by a global command that is open.
    #[tactic(auto, unfolding(crate::specs::Earlier::earlier_of))]
    fn hold(&mut self, current: usize, marks: Marks)
        ensures kept { (now : List (List ℕ)) →
            earlier_of self.new now ≡ undoing (kept_of current marks now) (earlier_of self.old now) }
        ensures keeps_room { self.old.room ≤ self.new.room }
    {
        if self.global.is_none() {
            self.changes.clear();
        }
        self.undone = Undone::Was(Held {
            current,
            marks,
            since: self.changes.len(),
        });
    }

    /// One more change of a command: what there was before it stays kept. It is joined to the one before where both are of one place, so
    /// that a line that grows again and again isn't held at each of its lengths.
    pub fn add(&mut self, change: Change)
        requires room { 0 < self.old.room }
        ensures kept { (now : List (List ℕ)) → StandsIn change now → earlier_of self.new now ≡ earlier_of self.old (texts_before change now) }
    {
        if self.joins(&change) {
            self.add_to_last(change);
        } else {
            self.push(change);
        }
    }

    /// Whether a change is of one place with the last one, and no buffer is held between them.
    fn joins(&self, change: &Change) -> bool
        ensures joins { IsTrue result → OwnsLast self.now }
    {
        match self.changes.len().checked_sub(1) {
            Some(last) => {
                self.changes[last].is_at_place_of(change)
                    && self.undone.is_within(last)
                    && OpenGlobal::is_within(&self.global, last)
            }
            None => false,
        }
    }

    /// Joins a change to the last one, or puts it after that.
    fn add_to_last(&mut self, change: Change)
        requires last { OwnsLast self.old }
        requires room { 0 < self.old.room }
        ensures kept { (now : List (List ℕ)) → StandsIn change now → earlier_of self.new now ≡ earlier_of self.old (texts_before change now) }
    {
        let alloc = *self.changes.allocator();
        let last = self.changes.len() - 1;
        match self.changes[last].join(alloc, change) {
            Ok(()) => {}
            Err(change) => self.changes.push_reserved(change),
        }
    }

    /// Puts a change after all others.
    fn push(&mut self, change: Change)
        requires room { 0 < self.old.room }
        ensures kept { (now : List (List ℕ)) → earlier_of self.new now ≡ earlier_of self.old (texts_before change now) }
    {
        self.changes.push_reserved(change);
    }

    /// The global command that is open is over, and undo would bring back the buffer before it. Where its list changed nothing,
    /// undo leaves the buffer as it is.
    #[tactic(auto, unfolding(crate::specs::Earlier::earlier_of))]
    pub fn close(&mut self)
        ensures closed { (now : List (List ℕ)) → earlier_of self.new now ≡ closing (earlier_of self.old now) }
    {
        let Some(open) = self.global.take() else {
            return;
        };
        let OpenGlobal { held, altered } = open;
        if altered {
            drop_front(&mut self.changes, held.since);
            self.undone = Undone::Was(Held {
                current: held.current,
                marks: held.marks,
                since: 0,
            });
        } else {
            self.changes.clear();
            self.undone = Undone::Same;
        }
    }

    /// A global command is open from here on; before its addresses were evaluated this line was current, and the letters were at
    /// `marks`.
    #[tactic(auto, unfolding(crate::specs::Earlier::earlier_of))]
    pub fn open(&mut self, current: usize, marks: Marks)
        ensures opened { (now : List (List ℕ)) → earlier_of self.new now ≡ opening_global (kept_of current marks now) (earlier_of self.old now) }
    {
        self.global = Some(OpenGlobal {
            held: Held {
                current,
                marks,
                since: self.changes.len(),
            },
            altered: false,
        });
    }

    /// Brings back the buffer that undo kept, in place of the present one, which it then keeps, and tells the line that is current
    /// there; `None` where all stays as it is. It costs no more than the changes did. After an `Err` the store may have some of
    /// the lines.
    pub fn bring_back<S: LineStore>(
        &mut self,
        alloc: Global,
        current: usize,
        store: &mut S,
    ) -> Result<Option<usize>, Fault>
        ensures brought { IfOk result (λ line. let before = earlier_of self.old (texts (S.lines store.old)) in
            Restores before.past current (S.lines store.old) (S.lines store.new) before (earlier_of self.new (texts (S.lines store.new))) line) }
        ensures fault { IfErr result (λ fault. fault ≢ Memory →
            (fault ≡ Undo) × ((earlier_of self.old (texts (S.lines store.old))).past ≡ Nothing)) }
        ensures within { IfOk result (λ line. IfSome line (λ line. line ≤ length (S.lines store.new))) }
    {
        let held = match &self.undone {
            Undone::Nothing => return Err(Fault::Undo),
            Undone::Same => return Ok(None),
            Undone::Was(held) => held,
        };
        let marks = Marks::of(store);
        let since = rewind(alloc, &self.global, held.since, &mut self.changes, store)?;
        take_flags(store);
        store.set_marks(&held.marks);
        let line = held.current.min(store.len());
        self.undone = Undone::Was(Held {
            current,
            marks,
            since,
        });
        self.forget();
        Ok(Some(line))
    }

    /// Where no global command is open, changes before the buffer that undo keeps are asked for no longer.
    #[tactic(auto, unfolding(crate::specs::Earlier::earlier_of))]
    fn forget(&mut self)
        ensures kept { (now : List (List ℕ)) → earlier_of self.new now ≡ earlier_of self.old now }
    {
        if self.global.is_some() {
            return;
        }
        if let Undone::Was(held) = &mut self.undone {
            drop_front(&mut self.changes, held.since);
            held.since = 0;
        }
    }
}

/// The same, where the first one replaced lines after line `from`.
fn join_replaced(
    alloc: Global,
    from: usize,
    entered: &mut usize,
    removed: &mut Block,
    later: Change,
) -> Result<(), Change>
    ensures joined { OnOk result ((now : List (List ℕ)) → StandsIn later now →
        exchanged from (from + entered.new) removed.new now ≡ exchanged from (from + entered.old) removed.old (texts_before later now)) }
    ensures handed_back { IfErr result (λ back. back ≡ later) }
    ensures kept { OnErr result ((entered.new ≡ entered.old) × (removed.new ≡ removed.old)) }
{
    match later {
        Change::Replaced {
            from: place,
            entered: more,
            removed: block,
        } => {
            if place != from {
                return Err(Change::Replaced {
                    from: place,
                    entered: more,
                    removed: block,
                });
            }
            match removed.append(alloc, *entered, block) {
                Ok(()) => {
                    *entered = more;
                    Ok(())
                }
                Err(block) => Err(Change::Replaced {
                    from: place,
                    entered: more,
                    removed: block,
                }),
            }
        }
        later => Err(later),
    }
}

/// Drops the first so many changes. It takes no memory.
fn drop_front(changes: &mut Vec<Change>, count: usize)
    requires within { count ≤ length changes.old.items }
    ensures left { changes.new.items ≡ drop count changes.old.items }
{
    let left = changes.len() - count;
    changes.rotate_left(count);
    changes.truncate(left);
}
