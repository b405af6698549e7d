//! One call of a folder, as a session that only reads asks for it: of the whole folder, or of what is visible in front
//! of a version.
ghost use Rattle.std.specs.Prelude.{◌≡◌, List, None, Some, IfOk, MatchOption, MatchResult, OnOk, false, map, string_bytes};
ghost use Rattle.session_core.specs.Shown.{IsExact};
ghost use Rattle.session_core.specs.Talks.{IsAnswerOf, asked_view, is_lost, kind_of, told_view};
ghost use Rattle.store_core.specs.Objects.{Objects, names_of};
ghost use Rattle.table_folder.specs.Faults.{CountsLoad, IsNotLoaded};
ghost use Rattle.table_folder.specs.Traces.{FolderCall, Traced};
ghost use Rattle.front_reads.specs.Fronts.{visible};
ghost use Rattle.folder_session.specs.Driving.{AreNames};
ghost use Rattle.folder_session.specs.Visible.{FailsVisible, HearsVisible, ListsFolder, given_after, given_names, visible_names};

use front_reads::{is_visible, visible_names};
use session_core::{Reply, Request};
use std::alloc::{AllocError, Global};
use store_core::Names;
use table_folder::{Folder, LoadFault};

/// What a listing is told as. Names that don't rise, which no folder lists, are told as a want of memory.
pub(crate) fn listed_as(names: Option<Names>) -> Reply
    ensures { MatchOption names (result ≡ Reply.Memory) (λ names. result ≡ Reply.Names names) }
{
    match names {
        Some(names) => Reply::Names(names),
        None => Reply::Memory,
    }
}

/// Those of the names that are visible.
fn visible_of(
    alloc: Global,
    front: Option<u64>,
    names: Vec<String>,
) -> Result<Vec<String>, AllocError>
    ensures kept { IfOk result (λ kept. map string_bytes kept.items ≡ visible_names front (map string_bytes names.items)) }
    ensures shown { IfOk result (λ kept. (objects : Objects) → map string_bytes names.items ≡ names_of objects → map string_bytes kept.items ≡ names_of (visible front objects)) }
{
    match front {
        Some(front) => visible_names(alloc, front, &names),
        None => Ok(names),
    }
}

/// The names that were listed before, if they are given, which they are once; or else those that the folder lists.
fn listed_names<F: Folder>(
    folder: &mut F,
    names: &mut Option<Vec<String>>,
) -> Result<Vec<String>, LoadFault>
    ensures exact { F.is_steady folder.old → AreNames names.old (F.objects folder.old) → IfOk result (λ listed. map string_bytes listed.items ≡ names_of (F.objects folder.old)) }
    ensures taken { names.new ≡ None }
    ensures untouched { F.is_steady folder.old → F.objects folder.new ≡ F.objects folder.old }
    ensures steady { F.is_steady folder.old → F.is_steady folder.new }
    ensures heard { MatchResult result
        (λ listed. (calls : List FolderCall) × Traced F.makes folder.old calls folder.new × ListsFolder (given_names names.old) (Some (map string_bytes listed.items)) calls)
        (λ _. (calls : List FolderCall) × Traced F.makes folder.old calls folder.new × ListsFolder (given_names names.old) None calls) }

    ensures faults { CountsLoad result (F.fault_count folder.old) (F.fault_count folder.new) }
    ensures never_fails { F.is_reliable folder.old → IsNotLoaded result → ⊥ }
    ensures stays_reliable { F.is_reliable folder.old → F.is_reliable folder.new }
{
    match names.take() {
        Some(names) => Ok(names),
        None => Ok(folder.names()?),
    }
}

/// Makes the call over what is visible of a folder, whose answer is handed on as it is; the names are those that were
/// listed before, if they are given. A put isn't asked for; of one it would be told that there is no memory for it.
pub(crate) fn ask<F: Folder>(
    alloc: Global,
    folder: &mut F,
    names: &mut Option<Vec<String>>,
    front: Option<u64>,
    request: Request,
) -> Result<Reply, LoadFault>
    ensures kind { IfOk result (λ reply. IsAnswerOf (kind_of (asked_view request)) (told_view reply)) }
    ensures exact { F.is_steady folder.old → AreNames names.old (F.objects folder.old) → IfOk result (λ reply. IsExact (visible front (F.objects folder.old)) (asked_view request) (told_view reply)) }
    ensures names { (objects : Objects) → AreNames names.old objects → AreNames names.new objects }
    ensures given { OnOk result (given_names names.new ≡ given_after (given_names names.old) (asked_view request)) }
    ensures heard { MatchResult result
        (λ reply. (calls : List FolderCall) × Traced F.makes folder.old calls folder.new × HearsVisible front (given_names names.old) (asked_view request) (told_view reply) calls)
        (λ _. (calls : List FolderCall) × Traced F.makes folder.old calls folder.new × FailsVisible front (given_names names.old) (asked_view request) calls) }
    ensures never_lost { IfOk result (λ reply. is_lost (told_view reply) ≡ false) }
    ensures untouched { F.is_steady folder.old → F.objects folder.new ≡ F.objects folder.old }
    ensures steady { F.is_steady folder.old → F.is_steady folder.new }

    ensures faults { CountsLoad result (F.fault_count folder.old) (F.fault_count folder.new) }
    ensures never_fails { F.is_reliable folder.old → IsNotLoaded result → ⊥ }
    ensures stays_reliable { F.is_reliable folder.old → F.is_reliable folder.new }
{
    match request {
        Request::List => {
            let listed = listed_names(folder, names)?;
            let visible = visible_of(alloc, front, listed)?;
            Ok(listed_as(Names::rising(alloc, visible)?))
        }
        Request::Get(name) => {
            if !is_visible(alloc, front, name.as_str())? {
                return Ok(Reply::Object(None));
            }
            Ok(Reply::Object(folder.read(name.as_str())?))
        }
        Request::PutFile(_, _) | Request::PutCommit(_, _) => Ok(Reply::Memory),
    }
}
