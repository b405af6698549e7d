//! The files of a table's folder on a disk. No contract says what a disk gives or takes.
ghost use Rattle.std.specs.Prelude.{◌≡◌, false, IfErr, IfOk, IfSome, IsTrue, OnOk, All, map, string_bytes};
ghost use Rattle.table_folder.specs.Gone.{disk_tells_gone};
ghost use Rattle.table_folder.specs.Names.{is_leftover, is_listed, is_table_name};

use crate::gaps::has_gap;
use crate::naming::{LOG, Listed, is_listed};
use crate::reason::reason_of;
use crate::{FolderFault, Reason};
use std::alloc::{AllocError, Global};
use std::fs::{File, OpenFile};
use std::io::{BufRead, BufReader, Error, ErrorKind, Read, Split, Write};
use std::rt::Files;
use std::{fs, io, str};
use store_core::Put;

/// The most bytes of a file that is read: 1 GiB.
const MOST_BYTES: u64 = 1 << 30;

/// How many names there are under which a file is written before it gets its own: `.new-0` and so on.
const MOST_HIDDEN_NAMES: u64 = 100_000;

/// How often a folder is listed again at most, where the commits that were listed have a gap.
const MOST_REPEATS: u64 = 3;

/// Why a call of the disk failed.
#[derive(Drop)]
pub(crate) enum DiskFault {
    Failed(Reason),
    Memory,
}

impl From<Error> for DiskFault {
    ghost from_gives = { λ _ fault. disk_tells_gone fault ≡ false };

    fn from(error: Error) -> DiskFault {
        match error.kind() {
            ErrorKind::OutOfMemory => DiskFault::Memory,
            kind => DiskFault::Failed(reason_of(kind)),
        }
    }
}

impl From<AllocError> for DiskFault {
    ghost from_gives = { λ _ fault. disk_tells_gone fault ≡ false };

    fn from(_e: AllocError) -> DiskFault {
        DiskFault::Memory
    }
}

/// The names of the plain files of a folder and of its log's folder, in the order of their bytes. Links, other folders
/// and names that begin with `.` are passed over; the log's folder may be absent. The log is listed first, so a commit
/// of another writer comes with the data files that were made before it. Both folders are synced before the names are
/// told, so that what a killed run has named lasts before anything is built on it. A listing isn't a moment: while
/// another writer puts commits it may miss one and have the next. So a folder whose commits have a gap is listed again,
/// a few times at most.
pub(crate) fn table_names<R: Files + AllocGlobal + Clone + Drop>(
    rt: &R,
    folder: &str,
) -> Result<Vec<String>, FolderFault>
    ensures { IfOk result (λ names. All (λ name. IsTrue (is_table_name name)) (map string_bytes names.items)) }
{
    for _ in 0..MOST_REPEATS {
        let names = listed_names(rt, Listed::Table, folder)?;
        if !has_gap(&names) {
            return Ok(names);
        }
    }
    listed_names(rt, Listed::Table, folder)
}

/// The names of the plain files that killed runs have left in a folder and in its log's folder, which may be absent, in
/// the order of their bytes. Links and folders of such names are passed over. Nothing is synced.
pub(crate) fn leftover_names<R: Files + AllocGlobal + Clone + Drop>(
    rt: &R,
    folder: &str,
) -> Result<Vec<String>, FolderFault>
    ensures { IfOk result (λ names. All (λ name. IsTrue (is_leftover name)) (map string_bytes names.items)) }
{
    listed_names(rt, Listed::Leftovers, folder)
}

/// The names that one listing tells.
fn listed_names<R: Files + AllocGlobal + Clone + Drop>(
    rt: &R,
    listed: Listed,
    folder: &str,
) -> Result<Vec<String>, FolderFault>
    ensures { IfOk result (λ names. All (λ name. IsTrue (is_listed listed name)) (map string_bytes names.items)) }
{
    // A folder that can't be read is told before its log's.
    drop(fs::read_dir(rt, folder).map_err(|e| fault_at(rt.alloc(), folder, e))?);
    let log = format!(in rt.alloc(); "{folder}/{LOG}")?;
    let mut names = Vec::new(rt.alloc());
    if is_there(rt, log.as_str())? {
        add_names(rt, listed, log.as_str(), LOG, &mut names)?;
    }
    add_names(rt, listed, folder, "", &mut names)?;
    names.sort()?;
    Ok(names)
}

/// Whether anything has that path.
fn is_there<R: Files + AllocGlobal>(rt: &R, path: &str) -> Result<bool, FolderFault> {
    fs::exists(rt, path).map_err(|e| fault_at(rt.alloc(), path, e))
}

/// Adds the names of a folder's plain files that are listed, each behind the prefix. A folder of which the table's
/// files are listed is synced.
fn add_names<R: Files + AllocGlobal>(
    rt: &R,
    listed: Listed,
    path: &str,
    prefix: &str,
    names: &mut Vec<String>,
) -> Result<(), FolderFault>
    requires { All (λ name. IsTrue (is_listed listed name)) (map string_bytes names.old.items) }
    ensures { OnOk result (All (λ name. IsTrue (is_listed listed name)) (map string_bytes names.new.items)) }
{
    let files = open_names(rt, path).map_err(|e| fault_at(rt.alloc(), path, e))?;
    for file in files {
        let file = file.map_err(|e| fault_at(rt.alloc(), path, e))?;
        if let Some(name) = plain_name(rt, listed, path, prefix, file.as_slice())? {
            names.push(name)?;
        }
    }
    match listed {
        Listed::Table => settle(rt, path),
        Listed::Leftovers => Ok(()),
    }
}

/// The names in a folder, as the disk tells them. `fs::read_dir` fails at one that isn't text, and doesn't say how it
/// begins. The slash at the end has a link to a folder followed.
fn open_names<R: Files + AllocGlobal>(rt: &R, path: &str) -> io::Result<Split<BufReader<R::Dir>>> {
    let path = format!(in rt.alloc(); "{path}/")?;
    let names = BufReader::new(rt.alloc(), rt.open_dir(path.as_str())?)?;
    Ok(names.split(rt.alloc(), 0))
}

/// The name of a folder's file behind the prefix, where it is listed and a plain file's. Where the table's files are
/// listed, a name that isn't text is a fault unless it begins with `.`, also a folder's: the disk can't be asked of
/// what it is.
fn plain_name<R: Files + AllocGlobal>(
    rt: &R,
    listed: Listed,
    path: &str,
    prefix: &str,
    file: &[u8],
) -> Result<Option<String>, FolderFault>
    ensures { IfOk result (λ found. IfSome found (λ name. IsTrue (is_listed listed (string_bytes name)))) }
{
    let Ok(text) = str::from_utf8(file) else {
        if listed == Listed::Leftovers || file.starts_with(b".") {
            return Ok(None);
        }
        return Err(fault_for(rt.alloc(), "-", Reason::NotText));
    };
    let name = format!(in rt.alloc(); "{prefix}{text}")?;
    if !is_listed(listed, name.as_str()) {
        return Ok(None);
    }
    let path = format!(in rt.alloc(); "{path}/{text}")?;
    match fs::symlink_metadata(rt, path.as_str()) {
        Ok(metadata) if metadata.is_file() => Ok(Some(name)),
        Ok(_) => Ok(None),
        Err(e) if e.kind() == ErrorKind::NotFound => Ok(None),
        Err(e) => Err(fault_at(rt.alloc(), name.as_str(), e)),
    }
}

/// Syncs a folder's names. A file system that can't be written to or can't sync a folder, which it may say by
/// `InvalidInput`, has nothing to wait for.
fn settle<R: Files + AllocGlobal>(rt: &R, path: &str) -> Result<(), FolderFault> {
    let Err(error) = sync_folder(rt, path) else {
        return Ok(());
    };
    match error.kind() {
        ErrorKind::ReadOnlyFilesystem
        | ErrorKind::PermissionDenied
        | ErrorKind::Unsupported
        | ErrorKind::InvalidInput => Ok(()),
        _ => Err(fault_at(rt.alloc(), path, error)),
    }
}

/// The fault of a call of the disk that failed there.
fn fault_at(alloc: Global, place: &str, error: Error) -> FolderFault {
    if error.kind() == ErrorKind::OutOfMemory {
        return FolderFault::Memory;
    }
    fault_for(alloc, place, reason_of(error.kind()))
}

/// The fault of a call that failed there, for that reason.
fn fault_for(alloc: Global, place: &str, reason: Reason) -> FolderFault {
    match String::from_str(alloc, place) {
        Ok(name) => FolderFault::Failed { name, reason },
        Err(_) => FolderFault::Memory,
    }
}

/// The bytes of the plain file of that path, or `None` where there is none, also where the path has a name that no file
/// can have: one that is too long, or has a zero byte. A file over 1 GiB is an error.
pub(crate) fn file_bytes<R: Files + AllocGlobal>(
    rt: &R,
    path: &str,
) -> Result<Option<Vec<u8>>, DiskFault>
    ensures { IfErr result (λ fault. disk_tells_gone fault ≡ false) }
{
    if path.as_bytes().contains(&0) {
        return Ok(None);
    }
    match fs::symlink_metadata(rt, path) {
        Ok(metadata) if !metadata.is_file() => return Ok(None),
        Ok(metadata) if metadata.len() > MOST_BYTES => {
            return Err(DiskFault::Failed(Reason::TooLarge));
        }
        Ok(_) => {}
        // `InvalidInput` doesn't tell that nothing stands there: a disk may say it of what stands.
        Err(e) => match e.kind() {
            ErrorKind::NotFound | ErrorKind::InvalidFilename => return Ok(None),
            _ => return Err(DiskFault::from(e)),
        },
    }
    let mut bytes = Vec::new(rt.alloc());
    let mut file = File::open(rt, path)?.take(MOST_BYTES + 1);
    file.read_to_end(&mut bytes)?;
    if bytes.len() as u64 > MOST_BYTES {
        return Err(DiskFault::Failed(Reason::TooLarge));
    }
    Ok(Some(bytes))
}

/// Makes a file with these bytes where the path is absent. They are written and synced under a name that begins with
/// `.`, and a link then gives the file its path, which fails where the path stands. So the path stands with all the
/// bytes or not at all. Want of memory is told as that only where nothing was made.
pub(crate) fn make_file<R: Files + AllocGlobal>(
    rt: &R,
    folder: &str,
    path: &str,
    bytes: &[u8],
) -> Result<Put, DiskFault> {
    if is_taken(rt, path)? {
        return Ok(Put::Exists);
    }
    let hidden = write_hidden(rt, folder, bytes)?;
    let linked = fs::hard_link(rt, hidden.as_str(), path);
    let removed = fs::remove_file(rt, hidden.as_str());
    match linked {
        Ok(()) => {}
        Err(e) if e.kind() == ErrorKind::AlreadyExists => {
            is_taken(rt, path)?;
            return Ok(Put::Exists);
        }
        Err(e) => return Err(link_fault(e)),
    }
    if removed.is_err() || sync_folder(rt, folder).is_err() {
        return Err(DiskFault::Failed(Reason::Other));
    }
    Ok(Put::Created)
}

/// Whether a plain file has the path of one that is to be made. Anything else there is a fault, since no file is found
/// there and none can be made: a folder, a pipe, a socket, a device, and a link whatever it leads to.
fn is_taken<R: Files + AllocGlobal>(rt: &R, path: &str) -> Result<bool, DiskFault> {
    match fs::symlink_metadata(rt, path) {
        Ok(metadata) if metadata.is_file() => Ok(true),
        Ok(_) => Err(DiskFault::Failed(Reason::NotAFile)),
        Err(e) if e.kind() == ErrorKind::NotFound => Ok(false),
        Err(e) => Err(DiskFault::from(e)),
    }
}

/// Why a file wasn't linked: a file system without hard links says so by `Unsupported` or `PermissionDenied`.
fn link_fault(error: Error) -> DiskFault {
    match error.kind() {
        ErrorKind::Unsupported | ErrorKind::PermissionDenied => DiskFault::Failed(Reason::NoLinks),
        _ => DiskFault::from(error),
    }
}

/// Writes and syncs the bytes under a new name that begins with `.`, and tells its path: the first of `.new-0`,
/// `.new-1`, .. that is free, which takes a call for each that killed runs have left; it is a fault where none is. Where
/// writing fails, the file is removed.
fn write_hidden<R: Files + AllocGlobal>(
    rt: &R,
    folder: &str,
    bytes: &[u8],
) -> Result<String, DiskFault> {
    for number in 0..MOST_HIDDEN_NAMES {
        let path = format!(in rt.alloc(); "{folder}.new-{number}")?;
        match File::create_new(rt, path.as_str()) {
            Ok(mut file) => {
                if let Err(e) = write_synced(&mut file, bytes) {
                    let _removed = fs::remove_file(rt, path.as_str());
                    return Err(DiskFault::from(e));
                }
                return Ok(path);
            }
            Err(e) if e.kind() == ErrorKind::AlreadyExists => {}
            Err(e) => return Err(DiskFault::from(e)),
        }
    }
    Err(DiskFault::Failed(Reason::TooManyLeftovers))
}

fn write_synced<W: Write + OpenFile>(file: &mut W, bytes: &[u8]) -> io::Result<()> {
    file.write_all(bytes)?;
    file.sync_all()
}

/// Makes a folder where it is absent, and syncs its parent: also where it stands, since the run that made it may have
/// been killed before it did so.
pub(crate) fn make_folder<R: Files>(rt: &R, parent: &str, path: &str) -> io::Result<()> {
    match fs::create_dir(rt, path) {
        Ok(()) => {}
        Err(e) if e.kind() == ErrorKind::AlreadyExists => {}
        Err(e) => return Err(e),
    }
    sync_folder(rt, parent)
}

/// Syncs a folder's names.
fn sync_folder<R: Files>(rt: &R, path: &str) -> io::Result<()> {
    File::open(rt, path)?.sync_all()
}
