//! The scripts that `vouch` is given, and what it is to do with them.
ghost use Rattle.std.specs.Prelude.{◌≡◌, map, option_map, IfOk};
ghost use Rattle.ed_main.specs.Words as meaning;
ghost use Rattle.ed_main.specs.declared.job.Job.TheVariants as job;

use crate::job::Job;
use crate::paths::Paths;
use crate::wanted::Wanted;
use crate::words::ANY_FILE;
use crate::words::texts::is_path;
use ed_base::Bytes;
use ed_calls::Detail;
use std::alloc::{AllocError, Global};

/// Whether each of these may name a file.
pub fn are_paths(names: &[&str]) -> bool
    ensures value { result ≡ meaning.are_paths (map (λ text. text.now) names.now) }
{
    for name in names {
        if !is_path(Some(*name)) {
            return false;
        }
    }
    true
}

/// The file that scripts are for: several are for any, where none is named.
pub fn file_for<'a>(path: Option<&'a str>, scripts: &[&str]) -> Option<&'a str>
    ensures value { option_map (λ text. text.now) result ≡ meaning.file_for (option_map (λ text. text.now) path.entry) (map (λ text. text.now) scripts.now) }
{
    match (path, scripts) {
        (None, [_, _, ..]) => Some(ANY_FILE),
        _ => path,
    }
}

/// The job of `vouch` with these scripts: a certificate, where there is one at most and something is to be told; else they are judged.
pub fn vouching(
    alloc: Global,
    wanted: Wanted,
    scripts: &[&str],
    all: bool,
    quiet: bool,
) -> Result<Job, AllocError>
    ensures value { IfOk result (λ job. job ≡ meaning.vouching_of wanted (map (λ text. text.now) scripts.now) all quiet) }
{
    if quiet {
        return judging(alloc, wanted, scripts, Detail::Nothing);
    }
    match scripts {
        [] => Ok(Job::Vouch {
            wanted,
            script: None,
            all,
        }),
        [script] => Ok(Job::Vouch {
            wanted,
            script: Some(Bytes::from_slice(alloc, script.as_bytes())?),
            all,
        }),
        _ => judging(alloc, wanted, scripts, detail_of(all)),
    }
}

/// These scripts are to be judged.
fn judging(
    alloc: Global,
    wanted: Wanted,
    scripts: &[&str],
    detail: Detail,
) -> Result<Job, AllocError>
    ensures value { IfOk result (λ found. found ≡ job.Judge wanted (map (λ text. text.now) scripts.now) detail) }
{
    Ok(Job::Judge {
        wanted,
        scripts: paths_of(alloc, scripts)?,
        detail,
    })
}

/// How much is told of a script that isn't vouched for, where something is.
fn detail_of(all: bool) -> Detail
    ensures value { result ≡ meaning.detail_of all }
{
    if all { Detail::Each } else { Detail::First }
}

fn paths_of(alloc: Global, names: &[&str]) -> Result<Paths, AllocError>
    ensures value { IfOk result (λ paths. paths ≡ map (λ text. text.now) names.now) }
{
    let mut paths = Paths::none(alloc);
    for name in names {
        paths.add(name)?;
    }
    Ok(paths)
}
