//! The folders in which files of the system stand.
ghost use Rattle.std.specs.Prelude.{◌≡◌};
ghost use Rattle.std.specs.Path.{path_bytes};
ghost use Rattle.ed_session.specs.Folders.{folder_bytes};

use std::fs::File;
use std::path::Path;
use std::rt::Files;

/// The folder in which a path is looked for.
pub fn folder_of(path: Path<'_>) -> Path<'_>
    ensures value { path_bytes result ≡ folder_bytes (path_bytes path.entry) }
{
    match path.parent() {
        Some(folder) if !folder.as_str().is_empty() => folder,
        _ => Path::new("."),
    }
}

/// Syncs a folder, so that the names that were made in it stay. Where it can't be opened or synced, it isn't.
pub fn sync_folder<R: Files<File = File>>(files: &R, folder: Path<'_>) {
    if let Ok(folder) = File::open(files, folder.as_str()) {
        let _ = folder.sync_all();
    }
}
