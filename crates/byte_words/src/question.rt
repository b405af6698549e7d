//! What a line can ask for, by its first word.

/// What bytes are told as by themselves.
#[derive(Clone, Copy)]
pub enum Kind {
    /// A varint in front.
    Varint,
    /// A zigzag varint of 16, 32 or 64 bits in front.
    Zig16,
    Zig32,
    Zig64,
    /// A number of four or eight bytes in front, the low byte first.
    U32,
    I32,
    I64,
    /// A struct of the Thrift compact protocol in front.
    Thrift,
    /// A Parquet file, of which the footer is told.
    Footer,
    /// The header of a Parquet page in front.
    Page,
    /// The JSON text of a table's schema.
    Schema,
    /// The lines of a Delta commit.
    Commit,
}

/// What bytes are told as for a table of a schema.
#[derive(Clone, Copy)]
pub enum TableKind {
    /// A Parquet file, of which the rows are told.
    Rows,
    /// A Parquet file, of which the chunks and their pages are told.
    Pages,
    /// A Parquet file, of which is told how its columns fit the table's.
    Fit,
    /// The JSON text of a row.
    Row,
    /// The JSON text of rows, of which the columns are told.
    Columns,
    /// The JSON text of columns, of which the rows are told.
    Assembled,
}

/// What is kept in a heap of a fixed size.
#[derive(Clone, Copy)]
pub enum HeapKind {
    /// Copies of a schema.
    Schema,
    /// A Thrift struct.
    Struct,
    /// The footer of a table's Parquet file.
    File,
}

/// What a line asks for.
#[derive(Clone, Copy)]
pub enum Question {
    /// What bytes are by themselves.
    Alone(Kind),
    /// What they are for a table of a schema.
    Table(TableKind),
    /// What comes of a heap of a fixed size.
    Heap(HeapKind),
    /// What stands in a hybrid of runs.
    Hybrid,
    /// What the pages of a column chunk hold.
    Chunk,
    /// What comes of spoiled bytes.
    Spoiled,
    /// What is written.
    Written,
}

const QUESTIONS: &[(&str, Question)] = &[
    ("varint", Question::Alone(Kind::Varint)),
    ("zigzag16", Question::Alone(Kind::Zig16)),
    ("zigzag32", Question::Alone(Kind::Zig32)),
    ("zigzag64", Question::Alone(Kind::Zig64)),
    ("u32", Question::Alone(Kind::U32)),
    ("i32", Question::Alone(Kind::I32)),
    ("i64", Question::Alone(Kind::I64)),
    ("thrift", Question::Alone(Kind::Thrift)),
    ("footer", Question::Alone(Kind::Footer)),
    ("page", Question::Alone(Kind::Page)),
    ("schema", Question::Alone(Kind::Schema)),
    ("commit", Question::Alone(Kind::Commit)),
    ("file", Question::Table(TableKind::Rows)),
    ("pages", Question::Table(TableKind::Pages)),
    ("fit", Question::Table(TableKind::Fit)),
    ("row", Question::Table(TableKind::Row)),
    ("columns", Question::Table(TableKind::Columns)),
    ("assemble", Question::Table(TableKind::Assembled)),
    ("heap", Question::Heap(HeapKind::Schema)),
    ("heap-tree", Question::Heap(HeapKind::Struct)),
    ("heap-file", Question::Heap(HeapKind::File)),
    ("hybrid", Question::Hybrid),
    ("chunk", Question::Chunk),
    ("spoil", Question::Spoiled),
    ("write", Question::Written),
];

/// What a line of this first word asks for.
pub fn question_named(word: &str) -> Option<Question> {
    for (name, question) in QUESTIONS {
        if *name == word {
            return Some(*question);
        }
    }
    None
}
