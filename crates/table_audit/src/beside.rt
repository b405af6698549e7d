//! The names that stand beside a table.

ghost use Rattle.std.specs.Prelude.{◌≡◌, ◌||◌, ◌&&◌, ℕ, List, [], ◌∷◌, Some, filter, is_some, not, map, IfOk, IfErr, OnOk, IsErrOf, string_bytes};
ghost use Rattle.std.specs.BTreeSet.{contains_text};
ghost use Rattle.std.specs.List.{list_any};
ghost use Rattle.delta_actions.specs.Action.{path_view, view, views};
ghost use Rattle.store_core.specs.Objects.{names_of};
ghost use Rattle.table_log.specs.Views.{version_view};
ghost use Rattle.table_check.specs.Named.{version_named};
ghost use Rattle.table_audit.specs.Audits.{HasLookedBeside, LooksBeside, ReadCommits, ReadInTurn, is_commit_name};
ghost use Rattle.table_audit.specs.Calls.{ReaderCall, ReaderTraced};
ghost use Rattle.table_audit.specs.Beside.{adds, is_unnamed, name_adds, version_adds};
ghost use Rattle.table_audit.specs.LargeFiles.{TellsNoFile};

use crate::fault::AuditError;
use crate::listing::version_named;
use crate::reader::ObjectReader;
use delta_actions::{Action, FilePath};
use std::alloc::{AllocError, Global};
use std::collections::BTreeSet;
use store_core::commit_version;
use table_log::{Version, version_of};

/// The names that stand beside the table, in the order of their bytes: of no commit and no checkpoint of a version, and
/// of no data file that a commit that can be read adds.
///
/// The names are listed once, and each commit is read once, one at a time. The time is linear in what is read and in
/// the names, but for a logarithm of how many files are added. Fails as [`audit`](crate::audit) does, but never as a
/// file is too large: no file is read.
pub fn unnamed<R: ObjectReader>(alloc: Global, reader: &mut R) -> Result<Vec<String>, AuditError>
    ensures told { R.is_steady reader.old → IfOk result (λ names. map string_bytes names.items ≡ filter (is_unnamed (R.objects reader.old)) (names_of (R.objects reader.old))) }
    // These calls are made of the reader, and no others.
    ensures called { (calls : List ReaderCall) × ReaderTraced R.makes reader.old calls reader.new × LooksBeside calls }
    ensures whole { IfOk result (λ names. (calls : List ReaderCall) × ReaderTraced R.makes reader.old calls reader.new × HasLookedBeside calls) }
    ensures untouched { R.is_steady reader.old → R.objects reader.new ≡ R.objects reader.old }
    ensures steady { R.is_steady reader.old → R.is_steady reader.new }
    ensures reliable { R.is_reliable reader.old → R.is_reliable reader.new }
    ensures never_lost { R.is_reliable reader.old → IsErrOf result AuditError.Lost → ⊥ }
    ensures no_file { IfErr result TellsNoFile }
{
    let names = reader.names()?;
    let files = files_added(alloc, reader, &names)?;
    Ok(unnamed_in(alloc, &names, &files)?)
}

/// The data files that the commits of these names add.
fn files_added<R: ObjectReader>(
    alloc: Global,
    reader: &mut R,
    names: &[String],
) -> Result<BTreeSet<String>, AuditError>
    ensures added { R.is_steady reader.old → IfOk result (λ files. (name : List ℕ) → contains_text files name ≡ list_any (name_adds (R.objects reader.old) name) (map string_bytes names.now)) }
    ensures called { (calls : List ReaderCall) × ReaderTraced R.makes reader.old calls reader.new × ReadCommits (Some (map string_bytes names.now)) calls }
    ensures whole { IfOk result (λ files. (calls : List ReaderCall) × ReaderTraced R.makes reader.old calls reader.new × ReadInTurn (filter is_commit_name (map string_bytes names.now)) calls) }
    ensures untouched { R.is_steady reader.old → R.objects reader.new ≡ R.objects reader.old }
    ensures steady { R.is_steady reader.old → R.is_steady reader.new }
    ensures reliable { R.is_reliable reader.old → R.is_reliable reader.new }
    ensures never_lost { R.is_reliable reader.old → IsErrOf result AuditError.Lost → ⊥ }
    ensures no_file { IfErr result TellsNoFile }
{
    let mut files = BTreeSet::new(alloc);
    for name in names {
        add_files_under(alloc, reader, name.as_str(), &mut files)?;
    }
    Ok(files)
}

/// Adds the data files that the commit of a name adds, if it is one's.
fn add_files_under<R: ObjectReader>(
    alloc: Global,
    reader: &mut R,
    name: &str,
    files: &mut BTreeSet<String>,
) -> Result<(), AuditError>
    ensures added { R.is_steady reader.old → OnOk result ((file : List ℕ) → contains_text files.new file ≡ (contains_text files.old file || name_adds (R.objects reader.old) file name.now)) }
    ensures called { (calls : List ReaderCall) × ReaderTraced R.makes reader.old calls reader.new × ReadInTurn (filter is_commit_name (name.now ∷ [])) calls }
    ensures untouched { R.is_steady reader.old → R.objects reader.new ≡ R.objects reader.old }
    ensures steady { R.is_steady reader.old → R.is_steady reader.new }
    ensures reliable { R.is_reliable reader.old → R.is_reliable reader.new }
    ensures never_lost { R.is_reliable reader.old → IsErrOf result AuditError.Lost → ⊥ }
    ensures no_file { IfErr result TellsNoFile }
{
    if commit_version(name).is_none() {
        return Ok(());
    }
    let Some(bytes) = reader.read(name)? else {
        return Ok(());
    };
    let version = version_of(alloc, &bytes)?;
    add_files_of(alloc, &version, files)?;
    Ok(())
}

/// Adds the data files that a version adds.
fn add_files_of(
    alloc: Global,
    version: &Version,
    files: &mut BTreeSet<String>,
) -> Result<(), AllocError>
    ensures { OnOk result ((file : List ℕ) → contains_text files.new file ≡ (contains_text files.old file || version_adds file (version_view version.now))) }
{
    match version {
        Version::Commit(actions) => add_files(alloc, actions, files),
        _ => Ok(()),
    }
}

/// Adds the data files that actions add.
fn add_files(
    alloc: Global,
    actions: &[Action],
    files: &mut BTreeSet<String>,
) -> Result<(), AllocError>
    ensures { OnOk result ((file : List ℕ) → contains_text files.new file ≡ (contains_text files.old file || list_any (adds file) (views actions.now))) }
{
    for action in actions {
        add_file(alloc, action, files)?;
    }
    Ok(())
}

/// Adds the data file that an action adds.
fn add_file(alloc: Global, action: &Action, files: &mut BTreeSet<String>) -> Result<(), AllocError>
    ensures { OnOk result ((file : List ℕ) → contains_text files.new file ≡ (contains_text files.old file || adds file (view action.now))) }
{
    let Action::Add(add) = action else {
        return Ok(());
    };
    let name = name_of(alloc, &add.path)?;
    files.insert(name)?;
    Ok(())
}

/// The name of the file that a path tells.
fn name_of(alloc: Global, path: &FilePath) -> Result<String, AllocError>
    ensures { IfOk result (λ name. string_bytes name ≡ (path_view path.now).key) }
{
    let key = path.key(alloc)?;
    String::from_str(alloc, &key)
}

/// Those of these names that aren't a commit's or a checkpoint's of a version, and none of these files.
fn unnamed_in(
    alloc: Global,
    names: &[String],
    files: &BTreeSet<String>,
) -> Result<Vec<String>, AllocError>
    ensures { IfOk result (λ unnamed. map string_bytes unnamed.items ≡ filter (λ name. not (is_some (version_named name)) && not (contains_text files.now name)) (map string_bytes names.now)) }
{
    let mut unnamed = Vec::new(alloc);
    for name in names {
        if is_unnamed(alloc, name, files)? {
            unnamed.push(name.clone()?)?;
        }
    }
    Ok(unnamed)
}

/// Whether a name isn't a commit's or a checkpoint's of a version, and none of these files.
fn is_unnamed(alloc: Global, name: &str, files: &BTreeSet<String>) -> Result<bool, AllocError>
    ensures { IfOk result (λ unnamed. unnamed ≡ (not (is_some (version_named name.now)) && not (contains_text files.now name.now))) }
{
    let version = version_named(alloc, name)?;
    Ok(version.is_none() && !files.contains(name))
}
