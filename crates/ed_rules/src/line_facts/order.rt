//! Joining, widening and comparing facts: what is joined is what one says and the other says too.

ghost use Rattle.std.specs.Prelude.{◌≡◌};
ghost use Rattle.std.specs.List.{list_any, list_all};
ghost use Rattle.ed_rules.specs.facts.FactOrder.{same_fact, same_stretch, says_line, says_clear, both_facts, cover_facts};

use crate::line_facts::known::{is_line, name_of, plus_of};
use crate::line_facts::{ClearStretch, KnownLine, LineFacts};
use zones::Zone;

fn same_fact(one: &KnownLine, other: &KnownLine) -> bool
    ensures value { result ≡ same_fact one.now other.now }
{
    one.pattern.as_slice() == other.pattern.as_slice()
        && one.name.place() == other.name.place()
        && one.matches == other.matches
}

fn same_stretch(one: &ClearStretch, other: &ClearStretch) -> bool
    ensures value { result ≡ same_stretch one.now other.now }
{
    one.pattern.as_slice() == other.pattern.as_slice()
        && one.after == other.after
        && one.before == other.before
}

impl LineFacts {
    /// Whether a fact is one of these.
    fn have(&self, fact: &KnownLine) -> bool
        ensures value { result ≡ list_any (same_fact fact.now) self.now.lines }
    {
        for own in &self.lines {
            if same_fact(fact, own) {
                return true;
            }
        }
        false
    }

    /// Whether a stretch is one of these.
    fn have_clear(&self, stretch: &ClearStretch) -> bool
        ensures value { result ≡ list_any (same_stretch stretch.now) self.now.clear }
    {
        for own in &self.clear {
            if same_stretch(stretch, own) {
                return true;
            }
        }
        false
    }

    /// Whether a fact is one of these, or is told of a line.
    fn say_line(&self, zone: &Zone, fact: &KnownLine) -> bool
        ensures value { result ≡ says_line zone.now self.now fact.now }
    {
        let pattern = fact.pattern.as_slice();
        self.have(fact)
            || (is_line(zone, fact.name) && self.tell(zone, fact.name, pattern, fact.matches))
    }

    /// Whether it is known here that no line of a stretch matches.
    fn say_clear(&self, zone: &Zone, stretch: &ClearStretch) -> bool
        ensures value { result ≡ says_clear zone.now self.now stretch.now }
    {
        let (after, before) = (stretch.after, stretch.before);
        self.have_clear(stretch)
            || self.are_clear(
                zone,
                name_of(after),
                plus_of(after),
                name_of(before),
                plus_of(before),
                stretch.pattern.as_slice(),
            )
    }

    /// Keeps the facts that other ones say too, with the bounds of the other side: what a join and a widening leave.
    pub fn keep_both(&mut self, zone: &Zone, other: &LineFacts)
        ensures value { self.new ≡ both_facts self.old zone.now other.now }
    {
        self.lines.retain(|fact| other.say_line(zone, fact));
        self.clear.retain(|stretch| other.say_clear(zone, stretch));
    }

    /// Whether other facts, with the bounds of that side, say each of these.
    pub fn are_covered(&self, zone: &Zone, strong: &LineFacts) -> bool
        ensures value { result ≡ cover_facts self.now zone.now strong.now }
    {
        for fact in &self.lines {
            if !strong.say_line(zone, fact) {
                return false;
            }
        }
        for stretch in &self.clear {
            if !strong.say_clear(zone, stretch) {
                return false;
            }
        }
        true
    }
}
