//! The header of a data page, written.

ghost use Rattle.std.specs.Prelude.{◌≡◌, ◌<◌, ◌≤◌, ◌^◌, length, IfOk};
ghost use Rattle.thrift_core.specs.Tree as tree;
ghost use Rattle.thrift_core.specs.View.{view, field_view};
ghost use Rattle.thrift_core.specs.Writing.{written};
ghost use Rattle.page_writing.specs.Writing.{header_form, header_tree, number_field};

use parquet_pages::{DATA_PAGE, PLAIN, RLE};
use std::alloc::{AllocError, Global};
use thrift_core::{Field, FieldForm, Form, TValue, write_struct};

/// DataPageHeader.
const DATA_PAGE_HEADER: Form = Form::Struct(&[
    FieldForm {
        id: 1,
        form: Form::Int32,
    },
    FieldForm {
        id: 2,
        form: Form::Int32,
    },
    FieldForm {
        id: 3,
        form: Form::Int32,
    },
    FieldForm {
        id: 4,
        form: Form::Int32,
    },
]);

/// PageHeader of a data page.
const PAGE_HEADER: Form = Form::Struct(&[
    FieldForm {
        id: 1,
        form: Form::Int32,
    },
    FieldForm {
        id: 2,
        form: Form::Int32,
    },
    FieldForm {
        id: 3,
        form: Form::Int32,
    },
    FieldForm {
        id: 5,
        form: DATA_PAGE_HEADER,
    },
]);

/// The header of a data page of so many values in PLAIN, of so many bytes (Apache Parquet, PageHeader).
pub(crate) fn header_bytes(alloc: Global, num_values: u32, size: u32) -> Result<Vec<u8>, AllocError>
    requires few { num_values < 2 ^ 31 }
    requires short { size < 2 ^ 31 }
    ensures { IfOk result (λ bytes. bytes.items ≡ written header_form (header_tree num_values size)) }
{
    let tree = header_tree(alloc, num_values, size)?;
    write_struct(alloc, &tree, &PAGE_HEADER)
}

/// A field that is a whole number.
fn integer(id: i16, number: i64) -> Field<Global>
    ensures { field_view result ≡ (id, tree.integer number) }
{
    Field {
        id,
        value: TValue::Int(number),
    }
}

fn header_tree(alloc: Global, num_values: u32, size: u32) -> Result<TValue<Global>, AllocError>
    ensures { IfOk result (λ tree. view tree ≡ header_tree num_values size) }
{
    let size = i64::from(size);
    let data = vec![in alloc;
        integer(1, i64::from(num_values)),
        integer(2, PLAIN),
        integer(3, RLE),
        integer(4, RLE),
    ]?;
    let fields = vec![in alloc;
        integer(1, DATA_PAGE),
        integer(2, size),
        integer(3, size),
        Field {
            id: 5,
            value: TValue::Struct(data)
        },
    ]?;
    Ok(TValue::Struct(fields))
}
