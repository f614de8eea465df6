//! The loop that runs a session to its end.
ghost use Rattle.std.specs.Prelude.{◌≡◌, ◌≢◌, ◌<◌, ◌≤◌, ◌-◌, ◌^◌, ◌++◌, [], true, false, Err, IfOk, IfSome, OnErr};
ghost use Rattle.ed_session.specs.declared.phase.Phase.TheVariants as phases;
ghost use Rattle.ed_session.specs.Sessions.{awaited, is_started, is_waiting};
ghost use Rattle.ed_session.specs.Calls.{Answers, BreaksOff};
ghost use Rattle.ed_session.specs.Drives.{added, Drove, Closed, FileRefused};
ghost use Rattle.ed_session.specs.Sinks.{change, Failed};
ghost use Rattle.ed_session.specs.Rounds.{Performs};
ghost use Rattle.ed_session.specs.Work.{work};

use crate::sink::give_pieces;
use crate::{Ask, Outside, Session, Sink};
use ed_base::Fault;
use ed_syntax::{Answer, Ending};
use line_store::LineStore;
use std::alloc::AllocError;

/// Gives a session that waits what its outside has answered; without memory for an answer its run is over.
fn hear<S: LineStore>(session: &mut Session<S>, heard: Result<Answer, AllocError>)
    requires waiting { session.old.phase ≡ phases.Waiting }
    requires handed_out { session.old.pending ≡ [] }
    ensures answered { IfOk heard (λ answer. IfSome (awaited session.old) (λ request. Answers session.old request answer session.new)) }
    ensures broke { OnErr heard (BreaksOff session.old [] [] [] session.new) }
    ensures idle { is_waiting session.new.phase ≡ false }
    ensures started { is_started session.new.phase ≡ true }
    ensures work { work session.new ≤ work session.old }
{
    match heard {
        Ok(answer) => session.answer(answer),
        Err(_) => session.fail_memory(),
    }
}

/// Brings a session to where it can be stepped: one that is fresh gets its start file, one that waits asks again.
fn begin<S: LineStore, O: Outside>(session: &mut Session<S>, outside: &mut O)
    ensures begun { Performs session.old session.new
        (O.log outside.old) (O.log outside.new) (O.failures outside.old) (O.failures outside.new) }
{
    if session.waits() {
        session.ask_again();
        return;
    }
    if session.started() {
        return;
    }
    match session.start_path() {
        None => session.start(Answer::Missing),
        Some(path) => match outside.read(path) {
            Ok(answer) => session.start(answer),
            Err(_) => session.fail_memory(),
        }
    }
}

/// Runs a session to its end: one that is fresh is started, with the read of its path or with an empty buffer, and one
/// that waits is answered first.
///
/// Each request is made of the outside once, in order, and all output goes to the sink before the next request.
pub fn drive<S: LineStore, O: Outside, W: Sink>(
    session: &mut Session<S>,
    outside: &mut O,
    sink: &mut W,
) -> Result<Ending, Fault>
    requires count { (W.state sink.old).failures < 2 ^ 64 - 1 }

    // What was asked is added to the log, after what it had.
    ensures log { O.log outside.new ≡ O.log outside.old ++ added (O.log outside.old) (O.log outside.new) }

    // The outside's count of failures doesn't fall.
    ensures rises { O.failures outside.old ≤ O.failures outside.new }

    // The run with these answers has ended so and its output was written; or memory ran out; or the sink failed.
    ensures run { Drove session.old (added (O.log outside.old) (O.log outside.new))
        (change (W.state sink.old) (W.state sink.new)) result }

    // Driven again it asks and writes nothing, and ends so again.
    ensures closed { Closed session.new result }

    // Where the faults of files and of output come from.
    ensures file_refused { result ≡ Err Fault.File →
        FileRefused session.old (added (O.log outside.old) (O.log outside.new)) (O.failures outside.old) (O.failures outside.new) }
    ensures output_refused { session.old.phase ≢ phases.Over (Err Fault.Output) → result ≡ Err Fault.Output →
        Failed (change (W.state sink.old) (W.state sink.new)) }
{
    begin(session, outside);
    'rounds: loop {
        match session.step() {
            Ask::Output(bytes) => {
                if !give_pieces(sink, session.allocator(), &bytes) {
                    session.fail_output();
                    return Err(Fault::Output);
                }
            }
            Ask::Read(path) => hear(session, outside.read(path.as_slice())),
            Ask::Write(path, bytes) => hear(session, outside.write(path.as_slice(), &bytes)),
            Ask::Ended(result) => return result,
        }
    }
}
