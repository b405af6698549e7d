//! The columns of a file, as a tree.

/// A node of a file's columns.
#[cycle(tree)]
#[derive(Drop)]
pub(crate) enum FileNode {
    /// A leaf, by the number of its physical type.
    Leaf(i64),
    /// A group of fields, in the order of the file.
    Group(Vec<FileField>),
}

/// A field of a group.
#[cycle(tree)]
#[derive(Drop)]
pub(crate) struct FileField {
    /// The name, in the bytes of the file.
    pub(crate) name: Vec<u8>,
    /// Whether it may be null.
    pub(crate) optional: bool,
    /// What it holds.
    pub(crate) node: FileNode,
}
