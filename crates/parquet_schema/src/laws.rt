//! Laws of a file's columns, each a function with an empty body whose contract is the law.

ghost use Rattle.std.specs.Prelude.{◌≡◌, ◌≤◌, List, Some, length, map};
ghost use Rattle.schema_tree.specs.Limits.{IsWithinLimits};
ghost use Rattle.schema_tree.specs.Tree.{Tree};
ghost use Rattle.shred.specs.Shape.{Shape, shape_of};
ghost use Rattle.shred.specs.Ways.{ways, highest};
ghost use Rattle.parquet_footer.specs.Metadata.{SchemaElement};
ghost use Rattle.parquet_schema.specs.FileTree.{FileField, FileFields, FileNode};
ghost use Rattle.parquet_schema.specs.FileTree.{IsSchemaList, depth_of_fields, fields_of};
ghost use Rattle.parquet_schema.specs.Fitting.{file_node, fitted};
ghost use Rattle.parquet_schema.specs.Leaves.{leaves_in};
ghost use Rattle.parquet_schema.specs.Reading.{file_fields};

/// A list is that of one tree at most, and is read as it where it nests at most 16 deep.
pub fn a_list_has_one_tree()
    ensures found { (es : List SchemaElement) (fs : List FileField) → file_fields es ≡ Some fs
        → IsSchemaList (fields_of fs) es }
    ensures only { (es : List SchemaElement) (fs : List FileField) → IsSchemaList (fields_of fs) es
        → depth_of_fields (fields_of fs) ≤ 15 → file_fields es ≡ Some fs }
    ensures one { (es : List SchemaElement) (fs gs : FileFields) → IsSchemaList fs es → IsSchemaList gs es → fs ≡ gs }
{}

/// The leaves of a shape that a file has are those of its ways, and the highest level of each is the number of its
/// nodes that may be null.
pub fn leaves_are_those_of_the_shape()
    ensures { (t : Tree) (node : FileNode) (s : Shape) → fitted t node ≡ Some s
        → map (λ l. length l.nullable) (leaves_in t s) ≡ map highest (ways s) }
{}

/// The tree of a table's own columns fits the table, as the shape of its rows.
pub fn the_tables_own_tree_fits()
    ensures { (t : Tree) (node : FileNode) → IsWithinLimits t → file_node t ≡ Some node
        → fitted t node ≡ Some (shape_of t) }
{}
