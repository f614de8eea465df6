//! `ed` for scripts: runs a script over a file.
#![tactic(auto)]

mod any_start;
mod chains;
mod diffs;
mod hindered;
mod inputs;
mod job;
mod letters;
mod meant;
mod paths;
mod patterns;
mod program;
mod proposing;
mod screen;
mod several;
mod stderr;
mod subcommands;
mod suffix;
mod task;
mod wanted;
mod whole_files;
mod words;
mod writing;

use ed_calls::show_memory;
use std::process::ExitCode;

fn main(rt: HostRuntime) -> ExitCode {
    let status = program::status_of_run(&rt);
    show_memory(&rt, status);
    ExitCode::from(status)
}
