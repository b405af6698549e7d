//! Columns and their cells.

use lake_bytes::Run;

/// The values of one leaf in all rows (Apache Parquet, "Nested Encoding").
#[derive(Debug, Drop)]
pub struct Column<V> {
    /// For each row how many optional fields of the way to the leaf, from the top, come before the first null: the
    /// definition level. It is the highest, the number of all optional fields on the way, where nothing is null.
    pub levels: Vec<u64>,
    /// The values of the rows in which nothing on the way is null, in order.
    pub values: Vec<V>,
}

/// The column of a leaf, of which only the values of some rows that follow one another were kept (Apache Parquet,
/// "Nested Encoding").
#[derive(Debug, Drop)]
pub struct ColumnPart<V> {
    /// The definition levels of all rows.
    pub levels: Vec<Run>,
    /// The column of the rows whose values were kept.
    pub kept: Column<V>,
}

/// What a column has of one row: a level, and the value where nothing on the way is null.
#[derive(Debug, Drop)]
pub struct Cell<V> {
    /// The definition level.
    pub level: u64,
    /// The value, where nothing on the way is null.
    pub value: Option<V>,
}
