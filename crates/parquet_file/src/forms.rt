//! The types that a footer is written with (Apache Parquet, parquet.thrift).

use thrift_core::{FieldForm, Form};

/// SchemaElement.
const SCHEMA_ELEMENT: Form = Form::Struct(&[
    FieldForm {
        id: 1,
        form: Form::Int32,
    },
    FieldForm {
        id: 3,
        form: Form::Int32,
    },
    FieldForm {
        id: 4,
        form: Form::Binary,
    },
    FieldForm {
        id: 5,
        form: Form::Int32,
    },
    FieldForm {
        id: 6,
        form: Form::Int32,
    },
]);

/// ColumnMetaData.
const COLUMN_META_DATA: Form = Form::Struct(&[
    FieldForm {
        id: 1,
        form: Form::Int32,
    },
    FieldForm {
        id: 2,
        form: Form::List(&Form::Int32),
    },
    FieldForm {
        id: 3,
        form: Form::List(&Form::Binary),
    },
    FieldForm {
        id: 4,
        form: Form::Int32,
    },
    FieldForm {
        id: 5,
        form: Form::Int64,
    },
    FieldForm {
        id: 6,
        form: Form::Int64,
    },
    FieldForm {
        id: 7,
        form: Form::Int64,
    },
    FieldForm {
        id: 9,
        form: Form::Int64,
    },
]);

/// ColumnChunk.
const COLUMN_CHUNK: Form = Form::Struct(&[
    FieldForm {
        id: 2,
        form: Form::Int64,
    },
    FieldForm {
        id: 3,
        form: COLUMN_META_DATA,
    },
]);

/// RowGroup.
const ROW_GROUP: Form = Form::Struct(&[
    FieldForm {
        id: 1,
        form: Form::List(&COLUMN_CHUNK),
    },
    FieldForm {
        id: 2,
        form: Form::Int64,
    },
    FieldForm {
        id: 3,
        form: Form::Int64,
    },
]);

/// FileMetaData.
pub(crate) const FOOTER: Form = Form::Struct(&[
    FieldForm {
        id: 1,
        form: Form::Int32,
    },
    FieldForm {
        id: 2,
        form: Form::List(&SCHEMA_ELEMENT),
    },
    FieldForm {
        id: 3,
        form: Form::Int64,
    },
    FieldForm {
        id: 4,
        form: Form::List(&ROW_GROUP),
    },
    FieldForm {
        id: 6,
        form: Form::Binary,
    },
]);
