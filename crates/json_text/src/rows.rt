//! Rows of JSON, read or still to be read.
ghost use Rattle.std.specs.Prelude.{◌≡◌};
ghost use Rattle.serde_json.specs.Events.{items_len};
ghost use Rattle.json_text.specs.Rows.{rows_data};

use crate::array::ArrayText;
use crate::value::Value;

/// Rows of JSON.
#[derive(Drop)]
pub enum JsonRows<'a> {
    /// Values that were read.
    Values(Vec<Value<'a>>),
    /// The text of each row, which is read when its turn comes.
    Texts(Vec<&'a str>),
    /// The text of the array, owned, which is read when its turn comes.
    Array(ArrayText),
}

impl JsonRows<'_> {
    /// How many rows there are.
    pub fn len(&self) -> usize
        ensures { result ≡ items_len (rows_data self.now) }
    {
        match self {
            JsonRows::Values(values) => values.len(),
            JsonRows::Texts(texts) => texts.len(),
            JsonRows::Array(array) => array.len(),
        }
    }
}
