//! Faults of a page, as those of a file.

ghost use Rattle.std.specs.Prelude.{◌≡◌};
ghost use Rattle.page_cells.specs.Outcome.{in_page};
ghost use Rattle.parquet_footer.specs.declared.fault.FileFault.TheVariants.{BadPage};

use lake_bytes::ByteFault;
use parquet_footer::{FileError, FileFault};
use thrift_values::ThriftFault;

/// A fault of a page's header or of what it holds.
pub fn bad_page(fault: ThriftFault) -> FileFault
    ensures { result ≡ BadPage fault }
{
    FileFault::BadPage { fault }
}

/// A fault of the bytes of a page.
pub fn bad_bytes(fault: ByteFault) -> FileError
    ensures { result ≡ FileError.Fault (in_page fault) }
{
    FileError::Fault(bad_page(fault.into()))
}
