//! Which names the files of a table's folder have, and those that killed runs have left in it.
ghost use Rattle.std.specs.Prelude.{◌≡◌};
ghost use Rattle.std.specs.Char.{is_ascii_digit};
ghost use Rattle.std.specs.List.{list_all};
ghost use Rattle.table_folder.specs.Names.{is_leftover, is_listed, is_new, is_shown, is_table_name};

/// The log's folder, as the names of its files begin.
pub(crate) const LOG: &str = "_delta_log/";

/// Which files a listing of a folder tells.
#[derive(Clone, Copy, Debug, PartialEq, Eq)]
pub(crate) enum Listed {
    /// Those of the table.
    Table,
    /// Those that killed runs have left.
    Leftovers,
}

/// Whether a listing of these tells that name.
pub(crate) fn is_listed(listed: Listed, name: &str) -> bool
    ensures { result ≡ is_listed listed name.now }
{
    match listed {
        Listed::Table => is_table_name(name),
        Listed::Leftovers => is_leftover(name),
    }
}

/// Whether it is the name of a file of a table's folder or of its log's: a plain file name that doesn't begin with
/// `.`, alone or behind `_delta_log/`. Takes time linear in its length.
#[tactic(auto, unfolding(crate::specs::Names::is_table_name))]
pub fn is_table_name(name: &str) -> bool
    ensures { result ≡ is_table_name name.now }
{
    let bytes = name.as_bytes();
    if is_shown(bytes) {
        return true;
    }
    if !bytes.starts_with(b"_delta_log/") {
        return false;
    }
    let (_, rest) = bytes.split_at(11);
    is_shown(rest)
}

/// Whether it is a plain file name that doesn't begin with `.`.
#[tactic(auto, unfolding(crate::specs::Names::is_shown))]
fn is_shown(name: &[u8]) -> bool
    ensures { result ≡ is_shown name.now }
{
    match name {
        [] => false,
        [first, ..] => *first != b'.' && !name.contains(&b'/'),
    }
}

/// Whether it is the name of a file that a killed run may have left: `.new-` and digits, alone or behind `_delta_log/`.
#[tactic(auto, unfolding(crate::specs::Names::is_leftover))]
fn is_leftover(name: &str) -> bool
    ensures { result ≡ is_leftover name.now }
{
    let bytes = name.as_bytes();
    if is_new(bytes) {
        return true;
    }
    if !bytes.starts_with(b"_delta_log/") {
        return false;
    }
    let (_, rest) = bytes.split_at(11);
    is_new(rest)
}

/// Whether it is `.new-` and digits.
#[tactic(auto, unfolding(crate::specs::Names::is_new))]
fn is_new(name: &[u8]) -> bool
    ensures { result ≡ is_new name.now }
{
    if name.len() < 6 || !name.starts_with(b".new-") {
        return false;
    }
    are_digits(&name[5..])
}

fn are_digits(bytes: &[u8]) -> bool
    ensures { result ≡ list_all is_ascii_digit bytes.now }
{
    bytes.iter().all(|byte| byte.is_ascii_digit())
}
