//! The values of a page in PLAIN, taken from their front.

ghost use Rattle.std.specs.Prelude.{◌≡◌, ◌≤◌, ◌++◌, List, [], length, take, drop, All, Ok, IsOk, OnOk, true, ◌<◌, ◌^◌};
ghost use Rattle.row_core.specs.Rows as rows;
ghost use Rattle.row_core.specs.Views.{row_views};
ghost use Rattle.page_cells.specs.Left.{HasValuesLeft};
ghost use Rattle.page_cells.specs.Outcome.{FindsWhere};
ghost use Rattle.page_cells.specs.Texts.{is_proper};
ghost use Rattle.page_cells.specs.Plain.{plain_at};

use crate::fault::bad_page;
use crate::part::add_some_values;
use crate::plain::pass_values;
use crate::types::LeafType;
use lake_bytes::Cursor;
use parquet_footer::{FileError, FileFault};
use row_core::Value;
use std::alloc::Global;

/// Values that are left of a page.
#[derive(Clone, Copy)]
pub struct PlainReader<'a> {
    leaf_type: LeafType,
    bytes: &'a [u8],
    /// How many in front of the bytes were passed: truth values, which don't begin at a byte each.
    passed: u64,
}

impl<'a> PlainReader<'a> {
    /// No values.
    pub fn none(leaf_type: LeafType) -> PlainReader<'a>
        ensures { HasValuesLeft leaf_type result [] }
    {
        PlainReader::new(leaf_type, &[])
    }

    /// The values of a page's bytes, whose texts are UTF-8.
    pub fn new(leaf_type: LeafType, bytes: &'a [u8]) -> PlainReader<'a>
        ensures { (values : List rows.Value) → plain_at leaf_type (length values) bytes.now ≡ Ok (values, [])
            → All (λ v. is_proper v ≡ true) values → length values < 2 ^ 64 → HasValuesLeft leaf_type result values }
    {
        PlainReader {
            leaf_type,
            bytes,
            passed: 0,
        }
    }

    /// Passes so many values, of which there are as many at least. The time is constant but for texts and bytes, where
    /// it is linear in their number.
    pub fn pass(&mut self, count: u64) -> Result<(), FileFault>
        ensures { (type : LeafType) (values : List rows.Value) → HasValuesLeft type self.old values → count ≤ length values
            → IsOk result × OnOk result (HasValuesLeft type self.new (drop count values)) }
    {
        if let LeafType::Boolean = self.leaf_type {
            self.passed = self.passed.saturating_add(count);
            return Ok(());
        }
        let mut cursor = Cursor::new(self.bytes);
        match pass_values(&mut cursor, self.leaf_type, count) {
            Ok(_has_long) => {}
            Err(fault) => return Err(bad_page(fault.into())),
        }
        self.bytes = cursor.left();
        Ok(())
    }

    /// Adds the first values that are left, so many, of which there are as many at least. The time is linear in them.
    pub fn add(&self, alloc: Global, count: u64, out: &mut Vec<Value>) -> Result<(), FileError>
        ensures { (type : LeafType) (values : List rows.Value) → HasValuesLeft type self.now values → count ≤ length values
            → FindsWhere (λ _. row_views out.new.items ≡ row_views out.old.items ++ take count values) result }
    {
        add_some_values(alloc, self.leaf_type, self.passed, count, self.bytes, out)
    }
}
