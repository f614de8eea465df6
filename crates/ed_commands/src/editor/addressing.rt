//! The values of addresses, and the lines that a command is applied to (XCU ed, "Addresses in ed").
ghost use Rattle.std.specs.Prelude.{◌≡◌, ◌≢◌, ◌≤◌, pos, ◌+ℤ◌, IfErr, IfOk};
ghost use Rattle.ed_base.specs.declared.fault.Fault.TheVariants.{Memory};
ghost use Rattle.ed_syntax.specs.PublicTypes.{address_value, addresses_value, base_value, command_value, default_value, verb_value};
ghost use Rattle.ed_syntax.specs.meaning.States.{last};
ghost use Rattle.ed_syntax.specs.meaning.Values.{value, evaluated, values, base_number, remembered, within};
ghost use Rattle.ed_syntax.specs.meaning.Verbs.{given_or, takes};
ghost use Rattle.ed_syntax.specs.meaning.Applied.{placed, targeted};
ghost use Rattle.ed_syntax.specs.meaning.Ranges.{last_of_two, spanned};
ghost use Rattle.ed_commands.specs.Editors.{Fits, SameButPattern, Steps, Tells, TellsLine, list_of_values, placed_value, span_value, with_pattern};

use crate::editor::Editor;
use crate::editor::searching::Direction;
use ed_base::Fault;
use ed_syntax::{Address, Addresses, Base, Command, DefaultAddresses, Taking, Verb};
use line_store::LineStore;

/// The values of the addresses before a command, in order.
#[derive(Clone, Copy, Debug, PartialEq, Eq)]
pub enum Values {
    Without,
    One(usize),
    Two(usize, usize),
}

/// The lines from first to last, counted from 1.
#[derive(Clone, Copy, Debug, PartialEq, Eq)]
pub struct Span {
    pub first: usize,
    pub last: usize,
}

/// What the addresses of a command name: its lines, and its target, which is 0 where it has none.
#[derive(Clone, Copy, Debug, PartialEq, Eq)]
pub struct Addressed {
    pub span: Span,
    pub target: usize,
}

/// The lines that these values name to a command that takes so many, in a buffer of so many lines.
fn spanned(taking: Taking, lines: usize, values: Values) -> Result<Span, Fault>
    requires within { last_of_two (list_of_values values) ≤ lines }
    ensures exact { Tells span_value (spanned taking lines (list_of_values values)) result }
    ensures memory { IfErr result (λ fault. fault ≢ Memory) }
    ensures fits { IfOk result (λ span. Fits taking span lines) }
{
    let (first, last) = match values {
        Values::Without => (0, 0),
        Values::One(only) => (only, only),
        Values::Two(first, last) => (first, last),
    };
    // Where a command takes line 0 for line 1.
    let from_one = last.max(1);
    match taking {
        Taking::NoAddress => Ok(Span { first: 0, last: 0 }),
        Taking::Place => Ok(Span { first: last, last }),
        Taking::FirstPlace => Ok(Span {
            first: from_one,
            last: from_one,
        }),
        Taking::OneLine if last == 0 => Err(Fault::Address),
        Taking::OneLine => Ok(Span { first: last, last }),
        Taking::Lines if last < first || lines < from_one => Err(Fault::Address),
        Taking::Lines => Ok(Span {
            first: first.max(1),
            last: from_one,
        }),
        Taking::Whole if matches!(values, Values::Without) => Ok(Span {
            first: 1,
            last: lines,
        }),
        Taking::Range | Taking::Whole if first == 0 || last < first => Err(Fault::Address),
        Taking::Range | Taking::Whole => Ok(Span { first, last }),
    }
}

impl<S: LineStore> Editor<S> {
    /// The line that a base stands for. It may lie after the last one.
    fn base_line(&mut self, base: &Base) -> Result<usize, Fault>
        ensures exact { TellsLine (base_number (base_value base.now) self.old.state)
            (with_pattern (remembered (base_value base.now) self.old.state) self.old.state) result self.new.state }
        ensures unchanged { SameButPattern self.old self.new }
    {
        let last = self.store.len();
        match base {
            Base::Number(line) => Ok(*line as usize),
            Base::Current => Ok(self.current),
            Base::Last => Ok(last),
            Base::Marked(letter) => match self.store.marked(*letter) {
                Some(place) => Ok(place + 1),
                None => Err(Fault::Mark),
            },
            Base::Forward(pattern) => self.search(Direction::Forward, pattern),
            Base::Backward(pattern) => self.search(Direction::Backward, pattern),
        }
    }

    /// The line so far after another.
    fn offset_line(&self, base: usize, offset: i128) -> Result<usize, Fault>
        ensures exact { result ≡ within self.now.state (pos base +ℤ offset) }
    {
        // A sum too great for its type is too great for any buffer, and so is one that is too small.
        let line = (base as i128).saturating_add(offset);
        let last = self.store.len() as i128;
        if line < 0 || last < line {
            return Err(Fault::Address);
        }
        Ok(line as usize)
    }

    /// The line that an address names, counted from 1. A search remembers its pattern, whether or not it finds a line;
    /// nothing else changes, and the editor doesn't fail by a fault of the address.
    pub fn value_of(&mut self, address: &Address) -> Result<usize, Fault>
        ensures exact { TellsLine (value (address_value address.now) self.old.state)
            (evaluated (address_value address.now) self.old.state) result self.new.state }
        ensures unchanged { SameButPattern self.old self.new }
        ensures within { IfOk result (λ line. line ≤ last self.new.state) }
    {
        let base = self.base_line(&address.base)?;
        self.offset_line(base, address.offset)
    }

    /// The values of the addresses before a command, first to last. After a `;` the first one's is the current line.
    fn values(&mut self, addresses: &Addresses) -> Result<Values, Fault>
        ensures exact { Steps list_of_values (values (addresses_value addresses.now) self.old.state) result self.new.state }
        ensures within { IfOk result (λ values. last_of_two (list_of_values values) ≤ last self.new.state) }
        ensures lines { self.new.state.lines ≡ self.old.state.lines }
        ensures failed { self.new.failed ≡ self.old.failed }
    {
        match addresses {
            Addresses::Without => Ok(Values::Without),
            Addresses::One(only) => Ok(Values::One(self.value_of(only)?)),
            Addresses::Comma(first, second) => {
                let first = self.value_of(first)?;
                let second = self.value_of(second)?;
                Ok(Values::Two(first, second))
            }
            Addresses::Semicolon(first, None) => {
                let line = self.value_of(first)?;
                self.current = line;
                Ok(Values::Two(line, line))
            }
            Addresses::Semicolon(first, Some(second)) => {
                let first = self.value_of(first)?;
                self.current = first;
                let second = self.value_of(second)?;
                Ok(Values::Two(first, second))
            }
        }
    }

    /// The values of the addresses that are given before a command, or of those that stand for none.
    fn given_values(
        &mut self,
        given: &Addresses,
        default: DefaultAddresses,
    ) -> Result<Values, Fault>
        ensures exact { Steps list_of_values (values (given_or (addresses_value given.now) (default_value default)) self.old.state)
            result self.new.state }
        ensures within { IfOk result (λ values. last_of_two (list_of_values values) ≤ last self.new.state) }
        ensures lines { self.new.state.lines ≡ self.old.state.lines }
        ensures failed { self.new.failed ≡ self.old.failed }
    {
        match given {
            Addresses::Without => self.values(&default.addresses()),
            given => self.values(given),
        }
    }

    /// The value of a command's target, or 0 where it has none.
    fn target(&mut self, verb: &Verb) -> Result<usize, Fault>
        ensures exact { Steps (λ line. line) (targeted (takes (verb_value verb.now)).target self.old.state) result self.new.state }
        ensures within { IfOk result (λ line. line ≤ last self.new.state) }
        ensures lines { self.new.state.lines ≡ self.old.state.lines }
        ensures failed { self.new.failed ≡ self.old.failed }
    {
        match verb.takes().target {
            Some(target) => self.value_of(target),
            None => Ok(0),
        }
    }

    /// What a command is applied to. All its addresses are evaluated before their order is looked at.
    pub(crate) fn addressed(&mut self, command: &Command) -> Result<Addressed, Fault>
        ensures exact { Tells (placed_value self.new.state) (placed (command_value command.now) self.old.state) result }
        ensures fits { IfOk result (λ addressed. Fits (takes (command_value command.now).verb).taking addressed.span (last self.new.state)) }
        ensures target { IfOk result (λ addressed. addressed.target ≤ last self.new.state) }
        ensures lines { self.new.state.lines ≡ self.old.state.lines }
        ensures failed { self.new.failed ≡ self.old.failed }
    {
        let takes = command.verb.takes();
        let values = self.given_values(&command.addresses, takes.default)?;
        let target = self.target(&command.verb)?;
        let span = spanned(takes.taking, self.store.len(), values)?;
        Ok(Addressed { span, target })
    }
}
