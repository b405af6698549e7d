//! The numbers that Parquet gives encodings and kinds of page (Apache Parquet, parquet.thrift).

/// Encoding PLAIN.
pub const PLAIN: i64 = 0;

/// Encoding RLE.
pub const RLE: i64 = 3;

/// PageType DATA_PAGE, a data page of version 1.
pub const DATA_PAGE: i64 = 0;

/// PageType DICTIONARY_PAGE.
pub(crate) const DICTIONARY_PAGE: i64 = 2;

/// The most bytes of a page, as of a file: 64 MiB.
pub const MAX_PAGE_SIZE: u64 = 67_108_864;
