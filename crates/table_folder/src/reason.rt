//! Why a call of a folder failed, for whoever is to put it right.
ghost use Rattle.std.specs.Prelude.{◌≡◌, false};
ghost use Rattle.table_folder.specs.Gone.{is_gone};

use std::io::ErrorKind;

/// Why a call of a folder failed, as far as the folder can tell. No contract says that it is right.
#[derive(Clone, Copy, Debug, PartialEq, Eq)]
pub enum Reason {
    /// There is no such folder or file.
    Missing,
    /// What has the folder's path is no folder.
    NotAFolder,
    /// Permission is lacking.
    Denied,
    /// The disk or the quota is full.
    Full,
    /// The file system can't be written to.
    ReadOnly,
    /// The file is over 1 GiB.
    TooLarge,
    /// A name in the folder isn't UTF-8.
    NotText,
    /// The name stands already, put by another writer.
    Taken,
    /// The file was listed, and isn't there any more.
    Gone,
    /// The file system has no hard links.
    NoLinks,
    /// What stands under the name is no plain file: a folder, a pipe, a socket, a device or a link.
    NotAFile,
    /// All names under which a file may be written are taken by what killed runs have left.
    TooManyLeftovers,
    /// None of these.
    Other,
}

/// What a disk's error tells by itself. The other reasons are told by the calls.
pub(crate) fn reason_of(kind: ErrorKind) -> Reason
    ensures { is_gone result ≡ false }
{
    match kind {
        ErrorKind::NotFound => Reason::Missing,
        ErrorKind::NotADirectory => Reason::NotAFolder,
        ErrorKind::PermissionDenied => Reason::Denied,
        ErrorKind::StorageFull | ErrorKind::QuotaExceeded => Reason::Full,
        ErrorKind::ReadOnlyFilesystem => Reason::ReadOnly,
        _ => Reason::Other,
    }
}
