//! What lies beside a table in its folder, each told in a line.
ghost use Rattle.std.specs.Prelude.{◌≡◌, ◌++◌, ◌∷◌, [], List, IfOk, IfErr, OnOk, codes, filter, map, string_bytes};
ghost use Rattle.table_folder.specs.Traces.{FolderCall, Traced};
ghost use Rattle.folder_check.specs.Beside.{AreBeside, is_data_file, is_stray, line_of};
ghost use Rattle.folder_check.specs.Calls.{LooksAround};
ghost use Rattle.folder_check.specs.Faults.{CheckTellsNoFile};

use crate::fault::CheckFault;
use crate::progress::Progress;
use crate::reader::FolderReader;
use serde_json::Value;
use std::alloc::{AllocError, Global};
use table_audit::unnamed;
use table_folder::Folder;

/// What lies beside the table, each with its name as a JSON string: what killed runs left of files that they wrote
/// (`leftover`), files that are no commit, no checkpoint and by their names no data file (`stray`), and data files that
/// no commit that can be read adds (`unnamed`). Reads each commit once.
pub(crate) fn lines_beside<F: Folder, P: Progress>(
    alloc: Global,
    reader: &mut FolderReader<F, P>,
) -> Result<Vec<String>, CheckFault>
    ensures lies { F.is_steady reader.old.folder → IfOk result (λ lines. AreBeside (F.objects reader.old.folder) (map string_bytes lines.items)) }
    ensures called { (calls : List FolderCall) × Traced F.makes reader.old.folder calls reader.new.folder × LooksAround calls }
    ensures untouched { F.is_steady reader.old.folder → F.objects reader.new.folder ≡ F.objects reader.old.folder }
    ensures steady { F.is_steady reader.old.folder → F.is_steady reader.new.folder }
    ensures no_file { IfErr result CheckTellsNoFile }
{
    let left = reader.leftovers()?;
    let before = reader.folder.faults();
    let names = match unnamed(alloc, reader) {
        Ok(names) => names,
        Err(error) => return Err(reader.why(error, before)),
    };
    Ok(lines_of(alloc, &left, &names)?)
}

/// The lines of what killed runs left, and of the names that the table doesn't know: first those of no data files.
fn lines_of(alloc: Global, left: &[String], names: &[String]) -> Result<Vec<String>, AllocError>
    ensures { IfOk result (λ lines. map string_bytes lines.items ≡ map (line_of (codes "leftover")) (map string_bytes left.now)
        ++ (map (line_of (codes "stray")) (filter is_stray (map string_bytes names.now)) ++ map (line_of (codes "unnamed")) (filter is_data_file (map string_bytes names.now)))) }
{
    let mut lines = Vec::new(alloc);
    for name in left {
        push_line(alloc, &mut lines, "leftover", name)?;
    }
    push_strays(alloc, &mut lines, names)?;
    push_data(alloc, &mut lines, names)?;
    Ok(lines)
}

/// Adds a line for each name that is no data file's.
fn push_strays(alloc: Global, lines: &mut Vec<String>, names: &[String]) -> Result<(), AllocError>
    ensures { OnOk result (map string_bytes lines.new.items ≡ map string_bytes lines.old.items ++ map (line_of (codes "stray")) (filter is_stray (map string_bytes names.now))) }
{
    for name in names {
        if !is_data(name) {
            push_line(alloc, lines, "stray", name)?;
        }
    }
    Ok(())
}

/// Adds a line for each name that is a data file's.
fn push_data(alloc: Global, lines: &mut Vec<String>, names: &[String]) -> Result<(), AllocError>
    ensures { OnOk result (map string_bytes lines.new.items ≡ map string_bytes lines.old.items ++ map (line_of (codes "unnamed")) (filter is_data_file (map string_bytes names.now))) }
{
    for name in names {
        if is_data(name) {
            push_line(alloc, lines, "unnamed", name)?;
        }
    }
    Ok(())
}

/// Adds a line: a word and a name.
fn push_line(
    alloc: Global,
    lines: &mut Vec<String>,
    word: &str,
    name: &str,
) -> Result<(), AllocError>
    ensures { OnOk result (map string_bytes lines.new.items ≡ map string_bytes lines.old.items ++ line_of word.now name.now ∷ []) }
{
    let name = Value::try_from_str(alloc, name)?.to_string(alloc)?;
    lines.push(format!(in alloc; "{word} {name}")?)?;
    Ok(())
}

/// Whether a name is a data file's: one of the table's folder, ending with `.parquet`.
fn is_data(name: &str) -> bool
    ensures { result ≡ is_data_file name.now }
{
    let name = name.as_bytes();
    !name.starts_with(b"_delta_log/") && name.ends_with(b".parquet")
}
