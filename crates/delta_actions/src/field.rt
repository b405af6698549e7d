//! The kinds of fields that only actions have: a file's path, and a table's format.

ghost use Rattle.std.specs.Prelude.{◌≡◌, true};
ghost use Rattle.json_fields.specs.Kinds.{is_text_map};
ghost use Rattle.delta_actions.specs.Kinds.{PathAndKey, Format, file_path, format};
ghost use Rattle.delta_actions.specs.Printing.{IsPath, path_data, format_data};
ghost use Rattle.delta_actions.specs.Action.{path_view, format_view};
ghost use Rattle.delta_actions.specs.KindLaws.{path_stands, is_path, format_stands, is_format};

use crate::file_path::FilePath;
use crate::table_format::TableFormat;
use json::Writer;
use json_fields::{FieldKind, TextMap, find, write_field};
use serde_json::Value;
use std::alloc::{AllocError, Global};

impl FieldKind for FilePath {
    ghost Plain = { PathAndKey };

    ghost plain = { path_view };

    ghost kind = { file_path };

    ghost printed = { path_data };

    ghost is_printable = { IsPath };

    fn read(alloc: Global, value: &Value) -> Result<Option<FilePath>, AllocError> {
        match value.as_str() {
            Some(text) => FilePath::new(alloc, text),
            None => Ok(None),
        }
    }

    fn write(&self, out: &mut Writer) -> Result<(), AllocError> {
        out.string(self.text())
    }

    ghost reads_back = { path_stands };

    ghost prints_back = { is_path };
}

impl FieldKind for TableFormat {
    ghost Plain = { Format };

    ghost plain = { format_view };

    ghost kind = { format };

    ghost printed = { format_data };

    ghost is_printable = { λ f. is_text_map f.options ≡ true };

    fn read(alloc: Global, value: &Value) -> Result<Option<TableFormat>, AllocError> {
        if !value.is_object() {
            return Ok(None);
        }
        let Some(provider) = find::<String>(alloc, value, "provider")? else {
            return Ok(None);
        };
        let Some(options) = find::<TextMap>(alloc, value, "options")? else {
            return Ok(None);
        };
        let provider = match provider {
            Some(provider) => provider,
            None => String::from_str(alloc, "parquet")?,
        };
        let options = match options {
            Some(options) => options,
            None => TextMap::new(alloc),
        };
        Ok(Some(TableFormat { provider, options }))
    }

    fn write(&self, out: &mut Writer) -> Result<(), AllocError> {
        out.begin_object()?;
        write_field(out, "options", &self.options)?;
        write_field(out, "provider", &self.provider)?;
        out.end_object()
    }

    ghost reads_back = { format_stands };

    ghost prints_back = { is_format };
}
