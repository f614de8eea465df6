//! What `s` needs that can't be written: in a list no replacement has a split.

use ed_base::Fault;
use ed_rules::{State, Texts, needs};
use ed_syntax::{Command, read_script};
use std::alloc::{AllocError, Global};
use std::test::Fail;

/// The first need of a command that fails, were it one of a list.
fn need_in_list(command: &mut Command, state: &State) -> Result<Option<Fault>, AllocError> {
    command.listed = true;
    needs(command, state)
}

/// The same of a script's first command.
fn first_need(alloc: Global, script: &[u8], state: &State) -> Result<Option<Fault>, AllocError> {
    let mut commands = read_script(alloc, script)?.commands;
    match commands.first_mut() {
        Some(command) => need_in_list(command, state),
        None => Ok(None),
    }
}

#[test]
fn a_split_is_refused_in_a_list(rt: HostRuntime) -> Result<(), Fail> {
    let state = State::start(rt.alloc(), &None, 1, None, &Texts::none(rt.alloc()))?;
    let need = first_need(rt.alloc(), b"1,1s/x/\\\n/\n", &state)?;
    assert!(rt; need == Some(Fault::Replacement));
    Ok(())
}
