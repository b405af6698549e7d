//! What bytes are by themselves.

use crate::commit::tell_commit;
use crate::footer::tell_footer;
use crate::headers::tell_page_struct;
use crate::schema::tell_schema;
use crate::tree::tell_struct;
use byte_words::{Kind, LineFault, Transcript, Words, tell_number};

/// Tells what the bytes of the words are.
pub fn tell_alone(
    kind: Kind,
    words: &mut Words<'_>,
    told: &mut Transcript,
) -> Result<(), LineFault> {
    let bytes = words.rest_bytes()?;
    tell_bytes(kind, &bytes, told)
}

/// Tells what these bytes are, or why they aren't of this kind.
pub fn tell_bytes(kind: Kind, bytes: &[u8], told: &mut Transcript) -> Result<(), LineFault> {
    match kind {
        Kind::Footer => tell_footer(bytes, told),
        Kind::Schema => tell_schema(bytes, told),
        Kind::Commit => tell_commit(bytes, told),
        Kind::Thrift => tell_struct(told.alloc(), bytes, told),
        Kind::Page => tell_page_struct(bytes, told),
        _ => tell_number(kind, bytes, told),
    }
}
