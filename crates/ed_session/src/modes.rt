//! What a run has turned on.
ghost use Rattle.std.specs.Prelude.{◌≡◌};
ghost use Rattle.ed_syntax.specs.PublicTypes.{verb_value};
ghost use Rattle.ed_session.specs.Insides.{prompting_after, help_after};

use ed_syntax::Verb;

/// What a run has turned on.
#[derive(Clone, Copy, Debug, PartialEq, Eq)]
pub(crate) struct Modes {
    /// The prompt is written before each command.
    pub(crate) prompting: bool,
    /// Reports have the texts of their faults.
    pub(crate) help: bool,
}

impl Modes {
    /// What is turned on after a command that is done.
    pub(crate) fn after(self, verb: &Verb) -> Modes
        ensures prompting { result.prompting ≡ prompting_after (verb_value verb.now) self.prompting }
        ensures help { result.help ≡ help_after (verb_value verb.now) self.help }
    {
        match verb {
            Verb::HelpMode => Modes {
                prompting: self.prompting,
                help: !self.help,
            },
            Verb::PromptMode => Modes {
                prompting: !self.prompting,
                help: self.help,
            },
            _ => self,
        }
    }
}
