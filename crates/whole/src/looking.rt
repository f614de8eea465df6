//! A look at the paths that a run is to replace whole, by which nothing is made or changed.
ghost use Rattle.std.specs.Prelude.{◌≡◌, ◌≢◌, ◌++◌, All, [], option_map, string_bytes, IfOk, OnOk, OnErr};
ghost use Rattle.whole.specs.OneFile.{AreDifferent, backup_path, planned_files, planned_paths};
ghost use Rattle.whole.specs.Paths.{is_in, more_paths};
ghost use Rattle.whole.specs.Insides.{AreDifferent-prop};

use crate::plain_files::{hold, refusal};
use crate::planned::Planned;
use crate::taken::refuse_taken;
use std::alloc::Global;
use std::fs::File;
use std::io;
use std::rt::Files;

/// The paths that a run is to replace whole, looked at in the order in which it's to write them.
#[derive(Drop)]
pub struct Lookahead {
    alloc: Global,
    // What is added to the names of files for those of their backups, if they are to have some.
    suffix: Option<String>,
    // Those that could be replaced so far, each once.
    planned: Vec<Planned>,
    ghost different: { AreDifferent (planned_files planned.items) } by { AreDifferent-prop (planned_files planned.items) },
}

impl Lookahead {
    /// No path so far. The old files are to be kept under their names with this suffix, if there is one.
    pub fn new(alloc: Global, suffix: Option<String>) -> Self
        ensures none { planned_paths result.planned.items ≡ [] }
        ensures suffix { result.suffix ≡ suffix }
    {
        Lookahead {
            alloc,
            suffix,
            planned: Vec::new(alloc),
        }
    }

    /// Whether a path could be replaced whole, as far as can be told without a draft beside it: a plain file with one link stands there, that can
    /// be opened to be written and isn't locked, or nothing, in a folder that is there; what has the name of its backup is a plain file with one
    /// link, or nothing; and neither is one that is to be replaced at another path. That the folder lets drafts be made, and that they can be
    /// given the owner of the file, isn't looked at.
    pub fn look<R: Files<File = File>>(&mut self, files: &R, path: &[u8]) -> io::Result<()>
        ensures added { OnOk result (planned_paths self.new.planned.items
            ≡ more_paths (is_in path.now (planned_paths self.old.planned.items)) (planned_paths self.old.planned.items) path.now) }
        ensures unchanged { OnErr result (self.new.planned.items ≡ self.old.planned.items) }
    {
        let Ok(path) = str::from_utf8(path) else {
            return Err(refusal("a name that isn't UTF-8"));
        };
        if is_planned(self.planned.as_slice(), path.as_bytes()) {
            return Ok(());
        }
        self.planned.reserve(1)?;
        let suffix = self.suffix.as_deref();
        let planned = plan(self.alloc, files, self.planned.as_slice(), path, suffix)?;
        self.planned.push_reserved(planned);
        Ok(())
    }

    /// No two of the paths that could be replaced are of one file, by what the system told when they were looked at.
    pub fn each_path_is_of_a_file_of_its_own(&self)
        ensures different { AreDifferent (planned_files self.now.planned.items) }
    {}
}

/// Whether a path is one of these.
fn is_planned(planned: &[Planned], path: &[u8]) -> bool
    ensures value { result ≡ is_in path.now (planned_paths planned.now) }
{
    'planned: for one in planned {
        if one.path.as_bytes() == path {
            return true;
        }
    }
    false
}

/// A path that could be replaced after these.
fn plan<R: Files<File = File>>(
    alloc: Global,
    files: &R,
    before: &[Planned],
    path: &str,
    suffix: Option<&str>,
) -> io::Result<Planned>
    ensures other { IfOk result (λ planned. All (λ other. other.file ≢ planned.file) before.now) }
    ensures path { IfOk result (λ planned. string_bytes planned.path ≡ path.now) }
    ensures backup { IfOk result (λ planned. backup_path planned.backup ≡ option_map (λ suffix. path.now ++ suffix.now) suffix.entry) }
{
    // No draft is made, so it has no number.
    let planned = Planned::of(alloc, files, path, 0, suffix)?;
    refuse_taken(before, &planned)?;
    if planned.found.is_some() {
        hold(files, path)?;
    }
    Ok(planned)
}
