//! Why bytes are no file of a table's rows, or no file can be written.

ghost use Rattle.std.specs.Prelude.{◌≡◌, Some};
ghost use Rattle.parquet_footer.specs.FaultTexts.{error_text, fault_text, footer_error_text};
ghost use Rattle.parquet_footer.specs.declared.fault.FileError.TheVariants.{Memory, Fault};
ghost use Rattle.parquet_footer.specs.declared.fault.FooterError.TheVariants as footer;

use std::alloc::{AllocError, AllocFailed};
use std::fmt;
use std::fmt::{Display, Formatter};
use thiserror::Error;
use thrift_core::ThriftFault;

/// What is wrong with a file that is read, the first fault in the order in which a file is tested; or why one can't
/// be written. The texts are written by hand, so that contracts know them.
#[derive(Clone, Copy, Debug, PartialEq, Eq, Error)]
pub enum FileFault {
    /// The file has under 12 bytes, or does not begin and end with the magic bytes `PAR1`.
    BadMagic,
    /// The footer can't be read, a field that is needed is missing or of another kind, or a count is negative.
    BadFooter { fault: ThriftFault },
    /// The codec of a column chunk isn't UNCOMPRESSED.
    Codec { n: i64 },
    /// The values of a page are in another encoding than PLAIN, or its levels in another than RLE.
    Encoding { n: i64 },
    /// A page is no data page of version 1.
    PageKind { n: i64 },
    /// A page begins before byte 4 or not before the footer, or runs into the footer.
    BadOffset,
    /// Sizes or counts that don't agree.
    CountMismatch,
    /// The file's columns aren't those of the table, a row group has no chunk of one, a null or a number out of range
    /// stands where the table has none, or two columns differ on whether a struct above both is null.
    SchemaMismatch,
    /// The file is over 64 MiB, it or a row group of it claims over 4,194,304 rows, or a text or bytes of it are over 1
    /// MiB. Of a file that is to be written: it would have over 4,194,304 rows, or it, a name, a page or the chunks so
    /// far over 64 MiB.
    TooLarge,
    /// A text isn't UTF-8.
    NotUtf8,
    /// A page's header or its values can't be read.
    BadPage { fault: ThriftFault },
}

impl Display for FileFault {
    ghost output = { λ fault. Some (fault_text fault) };

    fn fmt<W: fmt::Write>(&self, f: &mut Formatter<W>) -> fmt::Result {
        match self {
            FileFault::BadMagic => f.write_str("P1 BadMagic"),
            FileFault::BadFooter { fault } => write!(f, "P2 BadFooter {fault}"),
            FileFault::Codec { n } => write!(f, "P3 Codec {n}"),
            FileFault::Encoding { n } => write!(f, "P4 Encoding {n}"),
            FileFault::PageKind { n } => write!(f, "P5 PageKind {n}"),
            FileFault::BadOffset => f.write_str("P6 BadOffset"),
            FileFault::CountMismatch => f.write_str("P7 CountMismatch"),
            FileFault::SchemaMismatch => f.write_str("P8 SchemaMismatch"),
            FileFault::TooLarge => f.write_str("P9 TooLarge"),
            FileFault::NotUtf8 => f.write_str("P10 NotUtf8"),
            FileFault::BadPage { fault } => write!(f, "P11 BadPage {fault}"),
        }
    }
}

/// Why a file could not be read or written. Its texts are written by hand, so that contracts know them.
#[derive(Debug, Drop, Error)]
pub enum FileError {
    /// A growth of memory was refused.
    Memory,
    /// What is wrong with the file.
    Fault(FileFault),
}

impl Display for FileError {
    ghost output = { λ error. Some (error_text error) };

    fn fmt<W: fmt::Write>(&self, f: &mut Formatter<W>) -> fmt::Result {
        match self {
            FileError::Memory => f.write_str("out of memory"),
            FileError::Fault(fault) => write!(f, "{fault}"),
        }
    }
}

impl From<AllocError> for FileError {
    ghost from_gives = { λ _ e. e ≡ Memory };

    fn from(_e: AllocError) -> FileError {
        FileError::Memory
    }
}

impl<T: Drop> From<AllocFailed<T>> for FileError {
    ghost from_gives = { λ _ e. e ≡ Memory };

    fn from(_e: AllocFailed<T>) -> FileError {
        FileError::Memory
    }
}

impl From<FileFault> for FileError {
    ghost from_gives = { λ f e. e ≡ Fault f };

    fn from(fault: FileFault) -> FileError {
        FileError::Fault(fault)
    }
}

/// Why a footer could not be read into a memory of its own. Its texts are written by hand, so that contracts know them.
#[derive(Debug, Drop, Error)]
pub enum FooterError {
    /// What the footer says has no room in the memory that it is read in.
    NoRoom,
    /// What is wrong with the file.
    Fault(FileFault),
}

impl Display for FooterError {
    ghost output = { λ error. Some (footer_error_text error) };

    fn fmt<W: fmt::Write>(&self, f: &mut Formatter<W>) -> fmt::Result {
        match self {
            FooterError::NoRoom => f.write_str("P9 TooLarge"),
            FooterError::Fault(fault) => write!(f, "{fault}"),
        }
    }
}

impl From<FileFault> for FooterError {
    ghost from_gives = { λ f e. e ≡ footer.Fault f };

    fn from(fault: FileFault) -> FooterError {
        FooterError::Fault(fault)
    }
}
