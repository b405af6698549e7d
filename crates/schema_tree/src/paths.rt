//! Where a type stands in a schema.

ghost use Rattle.std.specs.Prelude.{◌≡◌, IfOk, None, Some};
ghost use Rattle.schema_tree.specs.FaultTexts.{path_text};
ghost use Rattle.schema_tree.specs.Fault.{path_of, path_inside};

use std::alloc::{AllocError, Global};
use std::fmt;
use std::fmt::{Display, Formatter};

/// The names of the fields that hold a type, outermost first, joined by `.`. The root of a schema has none. An
/// array's elements and a map's keys and values have the path of the field that holds the array or the map.
#[derive(Debug, Drop)]
pub struct ColumnPath {
    names: Option<String>,
}

impl ColumnPath {
    /// The path of the root.
    pub fn root() -> ColumnPath
        ensures { path_of result ≡ None }
    {
        ColumnPath { names: None }
    }

    /// The path of what stands there inside the field of this name.
    pub fn inside(self, alloc: Global, name: &str) -> Result<ColumnPath, AllocError>
        ensures { IfOk result (λ path. path_of path ≡ path_inside name.now (path_of self)) }
    {
        let mut names = String::from_str(alloc, name)?;
        if let Some(inner) = self.names {
            names.push_str(".")?;
            names.push_str(inner.as_str())?;
        }
        Ok(ColumnPath { names: Some(names) })
    }
}

impl Display for ColumnPath {
    ghost output = { λ path. Some (path_text (path_of path)) };

    fn fmt<W: fmt::Write>(&self, f: &mut Formatter<W>) -> fmt::Result {
        match &self.names {
            Some(names) => f.write_str(names.as_str()),
            None => Ok(()),
        }
    }
}
