//! What to write where a script can't be read to its end, whatever file it is for.

ghost use Rattle.std.specs.Prelude.{◌≡◌, [], false, is_some, All, IfOk, IfSome, IsTrue, OnOk};
ghost use Rattle.ed_syntax.specs.reading.Reading.{script_of};
ghost use Rattle.ed_syntax.specs.PublicScript.{script_value};
ghost use Rattle.hints.specs.Hints.{ReadsOn};

use crate::drafts::Draft;
use crate::numbering::Numbering;
use crate::rewritings::drafts_at;
use cert_check::Place;
use ed_base::{Bytes, Fault};
use ed_syntax::{Script, read_script};
use std::alloc::{AllocError, Global};

/// What is told of the command by which a script can't be read to its end.
#[derive(Debug, Drop)]
pub struct Respelling {
    /// What it tells a person, in one line.
    pub text: String,
    /// The script as it reads by that; none where it tells nothing to write.
    pub script: Option<Bytes>,
}

/// Whether a script has all commands of another one that can't be read to its end, and more of them, or fewer bytes.
fn reads_on(alloc: Global, script: &[u8], read: &Script, new: &[u8]) -> Result<bool, AllocError>
    requires read { script_value read.now ≡ script_of script.now }
    ensures sound { IfOk result (λ yes. IsTrue yes → ReadsOn script.now new.now) }
{
    let other = read_script(alloc, new)?;
    if !read.is_read_further(&other) {
        return Ok(false);
    }
    Ok(read.commands.len() < other.commands.len() || new.len() < script.len())
}

/// Puts what is told after the rest.
fn push_told(script: &[u8], found: &mut Vec<Respelling>, told: Respelling) -> Result<(), AllocError>
    requires found { All (λ one. IfSome one.script (ReadsOn script.now)) found.old.items }
    requires told { IfSome told.script (ReadsOn script.now) }
    ensures further { OnOk result (All (λ one. IfSome one.script (ReadsOn script.now)) found.new.items) }
{
    found.push(told)?;
    Ok(())
}

/// Puts in what a draft tells, and of drafts that write something the first one that reads on. Whether that is in by then.
fn push_draft(
    alloc: Global,
    script: &[u8],
    read: &Script,
    found: &mut Vec<Respelling>,
    is_told: bool,
    draft: Draft,
) -> Result<bool, AllocError>
    requires read { script_value read.now ≡ script_of script.now }
    requires found { All (λ one. IfSome one.script (ReadsOn script.now)) found.old.items }
    ensures further { OnOk result (All (λ one. IfSome one.script (ReadsOn script.now)) found.new.items) }
{
    let Draft {
        text,
        script: new,
        ..
    } = draft;
    let Some(new) = new else {
        push_told(script, found, Respelling { text, script: None })?;
        return Ok(is_told);
    };
    if is_told {
        return Ok(true);
    }
    if !reads_on(alloc, script, read, new.as_slice())? {
        return Ok(false);
    }
    let told = Respelling {
        text,
        script: Some(new),
    };
    push_told(script, found, told)?;
    Ok(true)
}

/// What to write where a script can't be read to its end, as where GNU's `ed`, `ex` or another system spells a command otherwise than POSIX: the
/// first thing that helps, and what else is told. Nothing of a script that can be read.
///
/// It is what a hint on an invalid command says, but for what hangs on a start.
pub fn respellings(alloc: Global, script: &[u8]) -> Result<Vec<Respelling>, AllocError>
    // What is written is read further than the script.
    ensures further { IfOk result (λ found. All (λ told. IfSome told.script (ReadsOn script.now)) found.items) }
    ensures readable { IfOk result (λ found. is_some (script_of script.now).fault ≡ false → found.items ≡ []) }
{
    let mut found = Vec::new(alloc);
    let read = read_script(alloc, script)?;
    if read.fault.is_none() {
        return Ok(found);
    }
    let place = Place {
        command: read.commands.len().saturating_add(1),
        inner: None,
    };
    let same = Numbering::same();
    let mut is_told = false;
    'drafts: for draft in drafts_at(alloc, script, None, place, Fault::Syntax, &[], &same)? {
        is_told = push_draft(alloc, script, &read, &mut found, is_told, draft)?;
    }
    Ok(found)
}
