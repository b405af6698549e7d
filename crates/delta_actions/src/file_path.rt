//! The path of a file action: a percent-encoded URI, and the key that it stands for.

ghost use Rattle.std.specs.Prelude.{◌≡◌, ◌↔◌, true, IfOk, option_map, string_bytes};
ghost use Rattle.std.specs.Cow.{cow_str_bytes};
ghost use Rattle.std.specs.Str.{is_utf8};
ghost use Rattle.percent_encoding.specs.Percent.{percent_decode};

use percent_encoding::{DecodeError, percent_decode};
use std::alloc::{AllocError, Global};
use std::borrow::CowStr;

/// A file's path as the log has it (Delta PROTOCOL.md, "Add File and Remove File"). It is kept once: what it decodes to
/// is decoded again where it is wanted.
pub struct FilePath {
    text: String,
    ghost decodes: { is_utf8 (percent_decode (string_bytes text)) ≡ true },
}

// By hand, so that a drop is one call to prove and not all that it holds (docs/GATE.md).
impl Drop for FilePath {
    fn drop(self) {
        let FilePath { text: _ } = self;
    }
}

impl FilePath {
    ghost use Rattle.delta_actions.specs.Action.{path_view};
    ghost use Rattle.delta_actions.specs.Kinds.{path_and_key};

    /// The path of that text; `None` where it doesn't decode to UTF-8.
    pub fn new(alloc: Global, text: &str) -> Result<Option<FilePath>, AllocError>
        ensures { IfOk result (λ path. option_map path_view path ≡ path_and_key text.now) }
    {
        match percent_decode(text.as_bytes()).decode_utf8(alloc) {
            Ok(_) => {}
            Err(DecodeError::Utf8(_)) => return Ok(None),
            Err(DecodeError::OutOfMemory) => return Err(AllocError),
        }
        let text = String::from_str(alloc, text)?;
        Ok(Some(FilePath { text }))
    }

    /// The path as the log has it.
    pub fn text(&self) -> &str
        ensures { result.now ≡ (path_view self.now).text }
    {
        self.text.as_str()
    }

    /// What the path decodes to: two paths of one key are one file. It is lent where nothing is escaped, and takes
    /// memory otherwise; fails where that runs out.
    pub fn key(&self, alloc: Global) -> Result<CowStr<'_, Global>, AllocError>
        ensures { IfOk result (λ key. cow_str_bytes key ≡ (path_view self.now).key) }
    {
        match percent_decode(self.text.as_bytes()).decode_utf8(alloc) {
            Ok(decoded) => Ok(decoded),
            Err(DecodeError::Utf8(_)) => Ok(CowStr::Borrowed(self.text.as_str())),
            Err(DecodeError::OutOfMemory) => Err(AllocError),
        }
    }

    /// Whether the two paths have one key, and so are one file. It takes no memory, and time linear in the texts.
    pub fn has_key(&self, other: &FilePath) -> bool
        ensures { result ≡ true ↔ (path_view self.now).key ≡ (path_view other.now).key }
    {
        decodes_as(self.text.as_bytes(), other.text.as_bytes())
    }
}

/// Whether the two texts decode to the same bytes.
fn decodes_as(text: &[u8], other: &[u8]) -> bool
    ensures { result ≡ true ↔ percent_decode text.now ≡ percent_decode other.now }
{
    let mut others = percent_decode(other);
    for byte in percent_decode(text) {
        if others.next() != Some(byte) {
            return false;
        }
    }
    others.next().is_none()
}
