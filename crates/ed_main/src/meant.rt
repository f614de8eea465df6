//! The file that may be the script that was meant, where the one that is judged is empty: as if a `<` was left out.
ghost use Rattle.std.specs.Prelude.{◌≡◌, [], map, Some, IfOk, IsTrue, IsFalse};
ghost use Rattle.std.specs.List.{list_any};
ghost use Rattle.ed_syntax.specs.PublicTypes.{step_value, verb_value};
ghost use Rattle.ed_main.specs.Meant.{IsMistaken, MayBeMeant, is_empty_for_script, is_named_as_script, is_write, looks_like_script};

use crate::inputs::read_at;
use crate::job::Job;
use ed_base::Bytes;
use ed_calls::is_named_as_script;
use ed_syntax::{Command, Verb, read_script};
use std::alloc::{AllocError, Global};
use std::fs::File;
use std::rt::Files;

/// Whether a script that is judged is empty, and its file may be the one that was meant.
pub fn is_mistaken<R>(rt: &R, script: &[u8], job: &Job) -> bool
where
    R: Files<File = File> + AllocGlobal,
    ensures sound { IsTrue result → IsMistaken job.now }
    ensures empty { IsTrue result → script.now ≡ [] }
    ensures named { IsFalse result → IsFalse (is_empty_for_script script.now job.now) }
{
    match job.judged_file() {
        Some(path) => script.is_empty() && may_be_meant(rt, path),
        None => false,
    }
}

/// Whether the file at this path may be the script that was meant. One that can't be read isn't taken for it, unless its name says so.
fn may_be_meant<R>(rt: &R, path: &Bytes) -> bool
where
    R: Files<File = File> + AllocGlobal,
    ensures sound { IsTrue result → MayBeMeant path.now }
    ensures named { IsFalse result → IsFalse (is_named_as_script (Some path.now)) }
{
    if is_named_as_script(path.as_slice()) {
        return true;
    }
    match read_at(rt, path) {
        Ok(bytes) => has_look(rt.alloc(), bytes.as_slice()),
        Err(_) => false,
    }
}

/// Whether bytes look like a script. Where there is no memory to tell, they don't.
fn has_look(alloc: Global, bytes: &[u8]) -> bool
    ensures sound { IsTrue result → IsTrue (looks_like_script bytes.now) }
{
    match looks_like_script(alloc, bytes) {
        Ok(found) => found,
        Err(AllocError) => false,
    }
}

/// Whether bytes are read as a script to their end, and it writes lines to a file.
fn looks_like_script(alloc: Global, bytes: &[u8]) -> Result<bool, AllocError>
    ensures value { IfOk result (λ found. found ≡ looks_like_script bytes.now) }
{
    let script = read_script(alloc, bytes)?;
    Ok(script.fault.is_none() && any_writes(script.commands.as_slice()))
}

fn any_writes(commands: &[Command]) -> bool
    ensures value { result ≡ list_any (λ step. is_write step.command.verb) (map step_value commands.now) }
{
    for command in commands {
        if is_write(&command.verb) {
            return true;
        }
    }
    false
}

fn is_write(verb: &Verb) -> bool
    ensures value { result ≡ is_write (verb_value verb.now) }
{
    matches!(verb, Verb::WriteFile(_))
}
