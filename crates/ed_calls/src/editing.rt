//! One run of a script, over any files and any sink.
ghost use Rattle.std.specs.Prelude.{◌≡◌, ◌<◌, ◌≤◌, ◌-◌, ◌^◌, ◌++◌};
ghost use Rattle.ed_session.specs.Drives.{added};
ghost use Rattle.ed_session.specs.Sinks.{change};
ghost use Rattle.ed_calls.specs.Edit.{Correct, status_at};

use crate::stderr::aside::Aside;
use ed_base::Fault;
use ed_session::{Outside, Session, Sink, drive};
use ed_syntax::{
    Ending, Options, cut_runs_write_a_front, read_script, scripts_are_read_as_spelled,
};
use line_store::ChunkStore;
use std::alloc::Global;

/// Runs the script that these bytes spell, and gives its exit status. Where the script is at fault, a person is told where.
pub fn edit<O: Outside, W: Sink>(
    alloc: Global,
    script: &[u8],
    options: Options,
    outside: &mut O,
    sink: &mut W,
    aside: &mut Aside<'_>,
) -> u8
    requires count { (W.state sink.old).failures < 2 ^ 64 - 1 }

    // What was asked is added to the log; all else is what the run of the script says.
    ensures log { O.log outside.new ≡ O.log outside.old ++ added (O.log outside.old) (O.log outside.new) }
    ensures correct { Correct script.now options (added (O.log outside.old) (O.log outside.new))
        (O.failures outside.old) (O.failures outside.new) (change (W.state sink.old) (W.state sink.new)) result }

    ensures status { result ≤ 3 }
{
    scripts_are_read_as_spelled();
    cut_runs_write_a_front();
    let Ok(script) = read_script(alloc, script) else {
        return Fault::Memory.status();
    };
    let commands = script.commands.len();
    match Session::<ChunkStore>::new(alloc, script, options) {
        Ok(mut session) => {
            let end = drive(&mut session, outside, sink);
            aside.ended(commands, &session, &end);
            status_of_end(end)
        }
        Err(_) => Fault::Memory.status(),
    }
}

fn status_of_end(ended: Result<Ending, Fault>) -> u8
    ensures value { result ≡ status_at ended }
    ensures status { result ≤ 3 }
{
    match ended {
        Ok(_) => 0,
        Err(fault) => fault.status(),
    }
}
