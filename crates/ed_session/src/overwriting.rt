//! A text that is written over what a file holds.
ghost use Rattle.std.specs.Prelude.{◌≡◌, ◌<◌, ◌≤◌, ◌+◌, ◌^◌, false, length, take, IfSome, IsTrue, OnOk, OnErr};
ghost use Rattle.ed_session.specs.Overwrites.{Wrote, WroteFront, Becomes, LeftBy};

use crate::chunks::Chunks;
use crate::file_places::FilePlaces;
use ed_base::Pieces;
use std::io;

/// Gives a file of this size just these bytes, and syncs them.
///
/// Where they are more, those beyond the old end are written first, which alone take room on a disk that is written in place; if they are
/// refused, they are cut off again. Where that is refused too, the first refusal is told.
pub(crate) fn overwrite<F: FilePlaces>(
    file: &mut F,
    size: u64,
    bytes: &Pieces,
    room: Vec<u8>,
) -> io::Result<()>
    requires size { IfSome (F.state file.old).held (λ held. length held ≡ size) }
    requires not_uncut { (F.state file.old).uncut ≡ false }
    ensures done { OnOk result (Becomes (F.state file.old).held (F.state file.new).held bytes.now) }
    ensures refused { OnErr result (LeftBy (F.state file.old) (F.state file.new) bytes.now) }
{
    match usize::try_from(size) {
        Ok(end) if end < bytes.len() => lengthen(file, end, bytes, room),
        _ => shorten(file, bytes, room),
    }
}

/// Gives a file of this size just these bytes, unless it has them already.
pub(crate) fn overwrite_changed<F: FilePlaces>(
    file: &mut F,
    size: u64,
    bytes: &Pieces,
    room: Vec<u8>,
) -> io::Result<()>
    requires size { IfSome (F.state file.old).held (λ held. length held ≡ size) }
    requires not_uncut { (F.state file.old).uncut ≡ false }
    ensures done { OnOk result (Becomes (F.state file.old).held (F.state file.new).held bytes.now) }
    ensures refused { OnErr result (LeftBy (F.state file.old) (F.state file.new) bytes.now) }
{
    if size != bytes.len() as u64 {
        return overwrite(file, size, bytes, room);
    }
    let mut all = Chunks::new(bytes, room);
    if has_chunks(file, &mut all) {
        return Ok(());
    }
    overwrite(file, size, bytes, all.into_room())
}

/// Whether a file begins with the bytes of these chunks.
fn has_chunks<F: FilePlaces>(file: &mut F, chunks: &mut Chunks) -> bool
    requires in_range { length chunks.old < 2 ^ 64 }
    ensures same { IsTrue result → Wrote (F.state file.old) (F.state file.old) 0 chunks.old }
    ensures unchanged { F.state file.new ≡ F.state file.old }
{
    let mut place = 0;
    'chunks: while let Some(chunk) = chunks.next_chunk() {
        if !file.has_at(chunk, place) {
            return false;
        }
        place += chunk.len();
    }
    true
}

/// Writes more bytes than the file has: first those beyond its end, then the others.
fn lengthen<F: FilePlaces>(
    file: &mut F,
    end: usize,
    bytes: &Pieces,
    room: Vec<u8>,
) -> io::Result<()>
    requires size { IfSome (F.state file.old).held (λ held. length held ≡ end) }
    requires longer { end < length bytes.now }
    requires not_uncut { (F.state file.old).uncut ≡ false }
    ensures done { OnOk result (Becomes (F.state file.old).held (F.state file.new).held bytes.now) }
    ensures refused { OnErr result (LeftBy (F.state file.old) (F.state file.new) bytes.now) }
{
    let mut beyond = Chunks::after(bytes, end, room);
    if let Err(refused) = write_synced(file, &mut beyond, end, bytes.len() - end) {
        let _ = file.cut(end);
        return Err(refused);
    }
    let mut front = Chunks::new(bytes, beyond.into_room());
    write_synced(file, &mut front, 0, end)
}

/// Writes no more bytes than the file has, from its front on, and cuts it.
fn shorten<F: FilePlaces>(file: &mut F, bytes: &Pieces, room: Vec<u8>) -> io::Result<()>
    requires not_longer { IfSome (F.state file.old).held (λ held. length bytes.now ≤ length held) }
    ensures done { OnOk result (Becomes (F.state file.old).held (F.state file.new).held bytes.now) }
    ensures refused { OnErr result (LeftBy (F.state file.old) (F.state file.new) bytes.now) }
{
    let mut all = Chunks::new(bytes, room);
    write_chunks(file, &mut all, 0, bytes.len())?;
    file.cut(bytes.len())?;
    file.sync()
}

/// Writes so many bytes of these chunks from a place on, and syncs them, if there are any.
fn write_synced<F: FilePlaces>(
    file: &mut F,
    chunks: &mut Chunks,
    place: usize,
    count: usize,
) -> io::Result<()>
    requires enough { count ≤ length chunks.old }
    requires in_range { place + count < 2 ^ 64 }
    ensures written { OnOk result (Wrote (F.state file.old) (F.state file.new) place (take count chunks.old)) }
    ensures front { OnErr result (WroteFront (F.state file.old) (F.state file.new) place (take count chunks.old)) }
{
    if count > 0 {
        write_chunks(file, chunks, place, count)?;
        file.sync()?;
    }
    Ok(())
}

/// Writes so many bytes of these chunks from a place on.
fn write_chunks<F: FilePlaces>(
    file: &mut F,
    chunks: &mut Chunks,
    place: usize,
    count: usize,
) -> io::Result<()>
    requires enough { count ≤ length chunks.old }
    requires in_range { place + count < 2 ^ 64 }
    ensures written { OnOk result (Wrote (F.state file.old) (F.state file.new) place (take count chunks.old)) }
    ensures front { OnErr result (WroteFront (F.state file.old) (F.state file.new) place (take count chunks.old)) }
{
    let mut at = place;
    let mut more = count;
    'chunks: while let Some(chunk) = chunks.next_chunk() {
        if more <= chunk.len() {
            file.write_at(&chunk[..more], at)?;
            return Ok(());
        }
        file.write_at(chunk, at)?;
        at += chunk.len();
        more -= chunk.len();
    }
    Ok(())
}
