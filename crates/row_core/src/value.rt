//! The values of a row.

ghost use Rattle.std.specs.Prelude.{◌≡◌};
ghost use Rattle.row_core.specs.Rows.{same, same_rows};
ghost use Rattle.row_core.specs.Views.{value_view, row_views};

/// A value of a row: a tree. A row is a struct.
#[cycle(tree)]
#[derive(Drop)]
pub enum Value {
    /// No value.
    Null,
    /// A truth value.
    Bool(bool),
    /// A whole number; of a date the days since 1970-01-01.
    Int(i64),
    /// A text; of a row at most 1 MiB.
    Text(String),
    /// Bytes; of a row at most 1 MiB.
    Bytes(Vec<u8>),
    /// The values of a struct's fields, in the order of the schema.
    Struct(Vec<Value>),
}

/// Whether two lists of rows are equal, each with the values in it. The time is linear in them.
#[cycle(compare)]
pub fn same_rows(rows: &[Value], others: &[Value]) -> bool
    ensures { result ≡ same_rows (row_views rows.now) (row_views others.now) }
{
    if rows.len() != others.len() {
        return false;
    }
    for (row, other) in rows.iter().zip(others) {
        if !same(row, other) {
            return false;
        }
    }
    true
}

/// Whether two values are equal.
#[cycle(compare)]
fn same(value: &Value, other: &Value) -> bool
    ensures { result ≡ same (value_view value.now) (value_view other.now) }
{
    match (value, other) {
        (Value::Null, Value::Null) => true,
        (Value::Bool(a), Value::Bool(b)) => a == b,
        (Value::Int(a), Value::Int(b)) => a == b,
        (Value::Text(a), Value::Text(b)) => a == b,
        (Value::Bytes(a), Value::Bytes(b)) => a == b,
        (Value::Struct(a), Value::Struct(b)) => same_rows(a, b),
        _ => false,
    }
}
