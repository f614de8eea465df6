//! What a person is told of a job beside its output. No clause speaks of that.
ghost use Rattle.hints.specs.Passing.{IsAllowed};

use crate::landmarked::TooFewLetters;
use crate::starts::Starts;
use crate::stderr::command_line::quoted;
use crate::stderr::file_name::{shell_option, shell_word, start_name};
use crate::stderr::found::{by_numbers, found, note_of, sought};
use crate::stderr::hinted::{hinted, unusable};
use crate::stderr::letters::too_few;
use crate::stderr::missed::landmark_missed;
use crate::stderr::stopped::{stopped, stopped_in_list};
use crate::stderr::unread::unread;
use crate::stderr::unreadable::{is_told, unread_command};
use crate::stderr::wanted::Wanted;
use crate::stderr::written::{person_lines, person_remark, tool_lines, tool_remark};
use analyser::{Analysis, Start};
use cert_check::{CertFault, Certificate, Place, Verdict, Version};
use ed_base::{Bytes, Fault, count_lines};
use ed_session::Session;
use ed_syntax::{Answer, Ending, Script};
use hints::{Missed, Said, ToldLine};
use landmarks::LandmarkChain;
use line_store::LineStore;
use remarks::{Remarked, remarks};
use std::alloc::{AllocError, Global};
use std::mem;

/// The status of a job that was done.
const DONE_STATUS: u8 = 0;

/// The status of a fault of the script, and of a certificate that is none or is refused.
const FAULT_STATUS: u8 = 1;

/// The status of a start that the certificate doesn't allow.
const OUTSIDE_STATUS: u8 = 4;

/// The same where the certificate was made for the run.
const UNFIT_STATUS: u8 = 5;

/// What a person is told, gathered while a job is done and shown after its output. That for which there is no memory is left out.
#[derive(Drop)]
pub struct Aside<'a> {
    alloc: Global,
    script: &'a [u8],
    // The name of the certificate's file, where the job has one.
    certificate: &'a [u8],
    // What is said of a start that isn't one over which the script is vouched for, where it is to be run over those alone.
    wanted: Option<Wanted>,
    told: Vec<ToldLine>,
    // What the script shows that is hardly meant.
    remarked: Vec<Remarked>,
}

impl<'a> Aside<'a> {
    /// Nothing so far, of a job with this script and the certificate in the file of this name.
    pub fn new(alloc: Global, script: &'a [u8], certificate: &'a [u8]) -> Self {
        Aside {
            alloc,
            script,
            certificate,
            wanted: None,
            told: Vec::new(alloc),
            remarked: Vec::new(alloc),
        }
    }

    /// Shows the lines where the job ended with a status that they explain.
    pub fn show(&self, rt: &impl Eprint, status: u8) {
        if matches!(
            status,
            DONE_STATUS | FAULT_STATUS | OUTSIDE_STATUS | UNFIT_STATUS
        ) {
            let _ = rt.eprint(self.lines().as_str());
        }
    }

    /// Shows the lines of one script among several, each after the script's name and the number of the script's line that it is about.
    pub fn show_under(&self, rt: &impl Eprint, name: &[u8]) {
        let _ = rt.eprint(self.lines_under(name).as_str());
    }

    /// The lines for a person.
    pub fn lines(&self) -> String {
        let mut lines = String::new(self.alloc);
        for told in self.told.as_slice() {
            push_lines(&mut lines, person_lines(self.alloc, told));
        }
        for remarked in self.remarked.as_slice() {
            push_lines(&mut lines, person_remark(self.alloc, *remarked));
        }
        lines
    }

    /// The lines for tools, under the script's name.
    pub fn lines_under(&self, name: &[u8]) -> String {
        let mut lines = String::new(self.alloc);
        for told in self.told.as_slice() {
            push_lines(&mut lines, tool_lines(self.alloc, name, told));
        }
        for remarked in self.remarked.as_slice() {
            push_lines(&mut lines, tool_remark(self.alloc, name, *remarked));
        }
        lines
    }

    fn add(&mut self, told: Result<ToldLine, AllocError>) {
        if let Ok(told) = told {
            let _ = self.told.push(told);
        }
    }

    /// That this is said, of no line of the script.
    fn say(&mut self, said: Result<Said, AllocError>) {
        if let Ok(said) = said {
            self.add(ToldLine::of_said(self.alloc, 1, said));
        }
    }

    /// What the script shows that is hardly meant, whatever is said of it.
    pub(crate) fn remark(&mut self) {
        if let Ok(remarked) = remarks(self.alloc, self.script) {
            self.remarked = remarked;
        }
    }

    /// The command at this place asks for a file by what isn't UTF-8.
    pub fn unusable(&mut self, place: Place) {
        if let Ok(Some(told)) = unusable(self.alloc, self.script, place) {
            self.add(Ok(told));
        }
    }

    /// The script is vouched for over a start that was found. Where `unbounded` is true, nothing was given of its number of lines.
    pub fn found(&mut self, script: &Script, start: &Start, unbounded: bool) {
        self.add(found(self.alloc, script, start, unbounded));
    }

    /// The script is vouched for over a start, and is to be run over a file only where that is one of it. Where `unbounded` is true, nothing was
    /// given of its number of lines.
    pub(crate) fn to_be_run(&mut self, script: &Script, start: &Start, unbounded: bool) {
        self.wanted = Wanted::of(self.alloc, start).ok();
        if let Some(note) = by_numbers(script, unbounded) {
            self.say(note_of(self.alloc, note));
        }
    }

    /// That a start isn't one that is allowed: what was wanted, where that is known, what the start has, and what to do.
    fn other_start(&mut self, found: Result<String, AllocError>) {
        let Ok(found) = found else {
            return;
        };
        match mem::replace(&mut self.wanted, None) {
            Some(wanted) => self.add(wanted.told(self.alloc, found)),
            None => self.say(Ok(Said::Error(found))),
        }
    }

    /// The script isn't vouched for over a start. Where `least_sought` is true, its least number of lines isn't given, and it has as many as
    /// there may be. The file is the one that it is proposed from, if it is, and each start that is hinted allows it. Where `all` is true, each
    /// later place that may fail is told too.
    pub fn cannot(
        &mut self,
        start: &Start,
        analysis: &Analysis,
        file: Option<&Bytes>,
        least_sought: bool,
        all: bool,
    )
        requires allowed { IsAllowed start.now }
    {
        let told = if least_sought {
            sought(self.alloc, self.script, start, analysis, all)
        } else {
            hinted(self.alloc, self.script, start, analysis, file, all)
        };
        if let Ok(told) = told {
            self.add_each(told);
        }
    }

    /// What is told of the commands of a script that isn't vouched for. That one of them can't be read comes first.
    fn add_each(&mut self, told: Vec<ToldLine>) {
        let mut told = told;
        if let Ok(Some(unread)) = unread_command(self.alloc, self.script) {
            let comes_first = match told.first() {
                Some(one) => is_told(one, &unread),
                None => false,
            };
            if !comes_first {
                told.retain(|one| !is_told(one, &unread));
                self.add(Ok(unread));
            }
        }
        let _ = self.told.append(&mut told);
    }

    /// How a run ended of a script that has so many commands: where it stopped, if the script is at fault.
    pub fn ended<S: LineStore>(
        &mut self,
        commands: usize,
        session: &Session<S>,
        end: &Result<Ending, Fault>,
    ) {
        if let Err(fault) = end {
            if fault.status() == FAULT_STATUS {
                let left = commands.saturating_sub(session.left());
                let told = if session.in_list() {
                    let left_in_list = session.left_in_list();
                    stopped_in_list(self.alloc, self.script, left, left_in_list, *fault)
                } else {
                    stopped(self.alloc, self.script, left.saturating_add(1), *fault)
                };
                self.add(told);
            }
        }
    }

    /// These bytes are the text of no certificate.
    pub fn unread(&mut self, bytes: &[u8], fault: CertFault) {
        if let Ok(Some(said)) = unread(self.alloc, self.certificate, bytes, fault) {
            self.say(Ok(said));
        }
    }

    /// What the checker says of a certificate.
    pub fn verdict(&mut self, certificate: &Certificate, verdict: &Verdict) {
        if let Verdict::Refused(place) = verdict {
            let told = refused(self.alloc, certificate, place);
            self.add(told);
        }
    }

    /// The start has another path than the certificate's.
    pub fn other_path(&mut self, certificate: &Certificate, path: &Option<Bytes>) {
        self.other_start(other_path(self.alloc, certificate, path));
    }

    /// The start has a number of lines that the certificate doesn't allow.
    pub fn other_size(&mut self, certificate: &Certificate, path: &Option<Bytes>, start: &Answer) {
        self.other_start(other_size(self.alloc, certificate, path, start));
    }

    /// The start has no line that matches a pattern which the certificate states.
    pub fn unmatched(&mut self, path: &Option<Bytes>, pattern: &Bytes) {
        self.other_start(unmatched(self.alloc, path, pattern.as_slice()));
    }

    /// The script leaves too few letters for the landmarks that are given.
    pub fn too_few_letters(&mut self, starts: &Starts, few: TooFewLetters) {
        self.say(too_few(self.alloc, starts.landmarks(), few));
    }

    /// The start doesn't have the landmarks of a chain that the certificate states.
    pub(crate) fn missed(&mut self, path: &Option<Bytes>, missed: &Missed<'_>) {
        self.other_start(landmark_missed(self.alloc, path, missed));
    }
}

/// Appends lines, where there was memory for them.
fn push_lines(lines: &mut String, more: Result<String, AllocError>) {
    if let Ok(more) = more {
        let _ = lines.push_str(more.as_str());
    }
}

/// The certificate doesn't show that the script can't fail.
fn refused(
    alloc: Global,
    certificate: &Certificate,
    place: &Place,
) -> Result<ToldLine, AllocError> {
    let mut told = ToldLine {
        line: 1,
        failure: None,
        more: Vec::new(alloc),
    };
    if place.command == 0 {
        told.more.push(Said::Error(String::from_str(alloc, other_script(certificate.version))?))?;
    }
    told.more.push(Said::Hint(again_text(alloc, certificate)?))?;
    Ok(told)
}

/// That the script isn't the certificate's, by its shape or, with landmarks, by the letters that it leaves for them.
fn other_script(version: Version) -> &'static str {
    match version {
        Version::One | Version::Two => {
            "the certificate is for another script: it has another number of commands"
        }
        Version::Three => {
            "the certificate is for another script: it has another number of commands, or leaves too few letters for the landmarks"
        }
    }
}

/// How a certificate for the same starts is made.
fn again_text(alloc: Global, certificate: &Certificate) -> Result<String, AllocError> {
    let bounds = bound_words(alloc, certificate)?;
    let bounds = bounds.as_str();
    let patterns = pattern_words(alloc, certificate)?;
    let patterns = patterns.as_str();
    match &certificate.path {
        Some(path) => {
            let word = shell_word(alloc, path.as_slice())?;
            let word = word.as_str();
            Ok(format!(in alloc; "vouch again: edv vouch {bounds}{patterns} {word}")?)
        }
        None => Ok(format!(in alloc; "vouch again: edv vouch {bounds}{patterns}")?),
    }
}

/// The words by which a certificate is made that has the same bounds. One that follows single lines without landmarks is only found, so the
/// fewest lines are to be found too.
fn bound_words(alloc: Global, certificate: &Certificate) -> Result<String, AllocError> {
    let min = certificate.min;
    let max = match certificate.max {
        Some(max) => format!(in alloc; "{max}")?,
        None => String::from_str(alloc, "any")?,
    };
    let max = max.as_str();
    let is_found = certificate.version == Version::Three
        && certificate.landmarks.as_slice().is_empty();
    match is_found {
        true => Ok(format!(in alloc; "--max {max}")?),
        false => Ok(format!(in alloc; "--min {min} --max {max}")?),
    }
}

/// The words by which a certificate is made that states the same patterns and landmarks, each after a blank.
fn pattern_words(alloc: Global, certificate: &Certificate) -> Result<String, AllocError> {
    let mut words = String::new(alloc);
    let patterns = match certificate.version {
        Version::One => return Ok(words),
        Version::Two | Version::Three => certificate.has.members(),
    };
    for pattern in patterns {
        push_option(alloc, &mut words, "--has", pattern.as_slice())?;
    }
    let chains: &[LandmarkChain] = match certificate.version {
        Version::One | Version::Two => &[],
        Version::Three => certificate.landmarks.as_slice(),
    };
    for chain in chains {
        push_option(alloc, &mut words, "--at", chain.text().as_slice())?;
    }
    if patterns.is_empty() && chains.is_empty() {
        words.push_str(" --patterns")?;
    }
    Ok(words)
}

/// Appends an option with its value, after a blank.
fn push_option(
    alloc: Global,
    words: &mut String,
    option: &str,
    value: &[u8],
) -> Result<(), AllocError> {
    words.push_str(" ")?;
    words.push_str(option)?;
    words.push_str(shell_option(alloc, value)?.as_str())?;
    Ok(())
}

fn other_path(
    alloc: Global,
    certificate: &Certificate,
    path: &Option<Bytes>,
) -> Result<String, AllocError> {
    let wanted = start_name(alloc, &certificate.path)?;
    let given = start_name(alloc, path)?;
    let wanted = wanted.as_str();
    let given = given.as_str();
    Ok(format!(in alloc; "the certificate is for {wanted}, not {given}")?)
}

fn other_size(
    alloc: Global,
    certificate: &Certificate,
    path: &Option<Bytes>,
    start: &Answer,
) -> Result<String, AllocError> {
    let count = match start {
        Answer::Bytes(bytes) => count_lines(bytes.as_slice()),
        _ => 0,
    };
    let name = start_name(alloc, path)?;
    let name = name.as_str();
    let lines = if count == 1 { "line" } else { "lines" };
    let allowed = allowed_text(alloc, certificate.min, certificate.max)?;
    let allowed = allowed.as_str();
    Ok(format!(in alloc; "{name} has {count} {lines}, and {allowed}")?)
}

fn unmatched(alloc: Global, path: &Option<Bytes>, pattern: &[u8]) -> Result<String, AllocError> {
    let name = start_name(alloc, path)?;
    let name = name.as_str();
    let pattern = quoted(alloc, pattern)?;
    let pattern = pattern.as_str();
    Ok(format!(in alloc; "{name}: no line matches {pattern}")?)
}

/// How many lines are allowed.
fn allowed_text(alloc: Global, min: u64, max: Option<u64>) -> Result<String, AllocError> {
    match max {
        Some(max) if max != min => Ok(format!(in alloc; "{min} to {max} are allowed")?),
        Some(1) => String::from_str(alloc, "1 is allowed"),
        Some(_) => Ok(format!(in alloc; "{min} are allowed")?),
        None if min == 1 => String::from_str(alloc, "at least 1 is allowed"),
        None => Ok(format!(in alloc; "at least {min} are allowed")?),
    }
}
