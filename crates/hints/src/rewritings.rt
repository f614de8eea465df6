//! The table of rewritings: what is tried where a need fails, by the place and the fault, in this order.

use crate::commands::{command_at, command_of, line_of_span, span_in};
use crate::drafts::{Applies, Draft, Spot};
use crate::endings::{close_text, quit_anyway, quit_at_end, write_at_end, write_first};
use crate::escapes::write_posix_escape;
use crate::foreign::{
    leave_out_colon, leave_out_comment, leave_out_returns, leave_out_shell, match_both_cases,
    name_file, part_commands, take_all_lines, take_counted_lines, tell_of_cut_lines,
    without_asking, write_and_quit, write_whole_file,
};
use crate::globals::{Reach, reach_of};
use crate::known::state_at;
use crate::lists::{move_to_end, tell_of_line_beside};
use crate::numbering::Numbering;
use crate::searches::{
    as_global, as_global_of_all, begin_at_first, leave_out_blank, tell_of_all_lines,
};
use cert_check::{Note, Place};
use ed_base::Fault;
use ed_syntax::{Script, Span, after_blanks, places, read_script};
use std::alloc::{AllocError, Global};

/// Where a need fails: at a command, in the list of one, or where the script has come to its end.
#[derive(Drop)]
enum Site {
    Command,
    Listed,
    End,
}

/// The table: which rewritings are tried where a need fails by a fault, in this order. Beside each stands what it is for.
fn push_all(site: Site, why: Fault, spot: &Spot<'_>, drafts: &mut Vec<Draft>) -> Applies {
    match (site, why) {
        (Site::Command, Fault::Syntax) => push_foreign(spot, drafts),
        (Site::Command, Fault::NoMatch) => {
            as_global(spot, drafts)?; // `/P/d`
            as_global_of_all(spot, drafts)?; // the same over all lines
            begin_at_first(spot, drafts)?; // `/A/,/B/d`
            tell_of_all_lines(spot, drafts) // `s/a/b/`
        }
        (Site::Command, Fault::Address) => {
            leave_out_blank(spot, drafts)?; // a blank line
            as_global(spot, drafts)?; // `/P/+1d`
            as_global_of_all(spot, drafts)?; // the same over all lines
            begin_at_first(spot, drafts) // `/A/,/B/d`
        }
        (Site::Command, Fault::Unsaved) => {
            write_first(spot, drafts)?; // `e`, `q`
            quit_anyway(spot, drafts) // `q`
        }
        (Site::Listed, Fault::Address) => tell_of_line_beside(spot, drafts), // `g/P/+1d`
        (Site::Listed, Fault::Destination) => move_to_end(spot, drafts), // `g/P/m$`
        (Site::End, Fault::Unsaved) => {
            close_text(spot, drafts)?; // `a` without its period
            write_at_end(spot, drafts)?; // no `w`
            quit_at_end(spot, drafts) // no `Q`
        }
        _ => Ok(false),
    }
}

/// The row of a command that can't be read. Of those joined by `||` just the first that applies is tried.
fn push_foreign(spot: &Spot<'_>, drafts: &mut Vec<Draft>) -> Applies {
    leave_out_colon(spot, drafts)?; // `:d`
    let _ = leave_out_returns(spot, drafts)? // a CR at its end
        || leave_out_comment(spot, drafts)? // `# ..`
        || write_and_quit(spot, drafts)? // `wq`, `x` at the end
        || tell_of_cut_lines(spot, drafts)? // `1x`
        || take_all_lines(spot, drafts)? // `%d`
        || without_asking(spot, drafts)? // `q!`, `w!`
        || take_counted_lines(spot, drafts)? // `d2`
        || leave_out_shell(spot, drafts)? // `!date`
        || name_file(spot, drafts)? // `r !date`
        || write_whole_file(spot, drafts)? // `W f`
        || part_commands(spot, drafts)? // `s/a/b/;p`
        || match_both_cases(spot, drafts)? // `s/a/b/I`
        || write_posix_escape(spot, drafts)?; // `s/\s*$//`
    push_readable(spot, drafts) // the first of these, by which it may only be read
}

/// The first draft once more, where its script can be read up to the place and after it: then what fails there is another need.
fn push_readable(spot: &Spot<'_>, drafts: &mut Vec<Draft>) -> Applies {
    let Some(
        Draft {
            advice,
            text,
            script: Some(script),
            removed,
            written,
            ..
        },
    ) = drafts.first()
    else {
        return Ok(false);
    };
    if read_script(spot.alloc, script.as_slice())?.commands.len() < spot.place.command {
        return Ok(false);
    }
    let again = Draft {
        advice: *advice,
        text: text.clone()?,
        script: Some(script.try_copy()?),
        removed: *removed,
        written: *written,
        past: 0,
    };
    drafts.push(again)?;
    Ok(true)
}

/// Where the bytes stand that are to be written otherwise, and at which kind of place.
fn site_of(script: &[u8], spans: &[Span], place: Place, why: Fault) -> (Site, Span) {
    match (span_in(spans, place.command), place.inner) {
        (Some(span), Some(_)) => (Site::Listed, span),
        (Some(span), None) if why == Fault::Syntax => (Site::Command, line_of_span(script, span)),
        (Some(span), None) => (Site::Command, span),
        (None, _) => (
            Site::End,
            Span {
                line: 0,
                low: script.len(),
                high: script.len(),
            },
        ),
    }
}

/// A line without a colon in front.
fn after_colon(line: &[u8]) -> &[u8] {
    match after_blanks(line) {
        [b':', rest @ ..] => after_blanks(rest),
        _ => line,
    }
}

/// The lines that a global command takes in the place of the command at a place, before which this is known.
fn reach_at(
    alloc: Global,
    read: &Script,
    place: Place,
    notes: &[Note],
) -> Result<Option<Reach>, AllocError> {
    match command_of(read, place) {
        Some(command) => reach_of(alloc, command, state_at(place, notes)),
        None => Ok(Some(Reach::All)),
    }
}

/// What may help at a place, before which this is known, by a start with this path: the best first. Lines are told by their numbers in the script
/// that was given.
pub(crate) fn drafts_at(
    alloc: Global,
    script: &[u8],
    path: Option<&[u8]>,
    place: Place,
    why: Fault,
    notes: &[Note],
    numbering: &Numbering,
) -> Result<Vec<Draft>, AllocError> {
    let read = read_script(alloc, script)?;
    let spans = places(alloc, script)?;
    let (site, span) = site_of(script, spans.as_slice(), place, why);
    let command = command_at(script, span);
    let spot = Spot {
        alloc,
        script,
        read: &read,
        spans: spans.as_slice(),
        place,
        span,
        command: if why == Fault::Syntax {
            after_colon(command)
        } else {
            command
        },
        reach: reach_at(alloc, &read, place, notes)?,
        path,
        numbering,
    };
    let mut drafts = Vec::new(alloc);
    push_all(site, why, &spot, &mut drafts)?;
    Ok(drafts)
}
