//! A session that puts something, driven over a folder: what it puts is kept in memory beside the folder, which is left
//! as it is.
ghost use Rattle.std.specs.Prelude.{◌≡◌, List, [], false, true, None, IfErr, IfOk, option_map};
ghost use Rattle.std.specs.String.{string_bytes};
ghost use Rattle.session_core.specs.Stores.{Answers, AnswersPut};
ghost use Rattle.session_core.specs.Talks.{IsAnswerOf, Talk, asked_view, fault_reply, get_object, getting, is_lost, kind_of, list_names, listing, putting, told_view};
ghost use Rattle.store_core.specs.Listed.{listed};
ghost use Rattle.store_core.specs.Memory.{stored_objects};
ghost use Rattle.store_core.specs.Objects.{Objects, names_of, object_at};
ghost use Rattle.table_folder.specs.Faults.{CountsLoad, IsNotLoaded};
ghost use Rattle.table_folder.specs.Traces.{FolderCall, MakeNone, Traced};
ghost use Rattle.folder_session.specs.Beside.{AreApart, EndsBeside, EndsOver, HearsCall, HearsPut, IsOpened, put_named, put_so, with_beside};
ghost use Rattle.folder_session.specs.Looking.{OnlyLooks};

use crate::asking::listed_as;
use session_core::{Reply, Request, Session, Step, a_store_answers_as_any_store_may};
use std::alloc::Global;
use store_core::{MemoryStore, Names, Put, Store, StoreFault, commit_name};
use table_folder::{Folder, LoadFault};

/// How a session ended that was driven over a folder, and what it put.
#[derive(Drop)]
pub struct Beside<T> {
    pub outcome: T,
    /// What is to be saved in the folder. Over a steady one none of it stands there.
    pub added: MemoryStore,
}

/// The answer that stands for a call of a store in memory that has none.
fn reply_of(fault: StoreFault) -> Reply
    ensures { result ≡ fault_reply fault }
{
    match fault {
        StoreFault::Lost => Reply::Lost,
        StoreFault::Memory => Reply::Memory,
    }
}

/// All names that stand. Behind a put they aren't listed any more: it is told that there is no memory for them.
fn list_beside(names: &Names, added: &mut MemoryStore) -> Reply
    ensures kind { IsAnswerOf listing (told_view result) }
    ensures never_lost { is_lost (told_view result) ≡ false }
    ensures answers { (objects : Objects) → listed names.now ≡ names_of objects
        → Answers (with_beside objects (stored_objects added.old), []) list_names (told_view result) (with_beside objects (stored_objects added.new), []) }
    ensures heard { HearsCall (listed names.now) (stored_objects added.old) list_names (told_view result) [] }
    ensures kept { stored_objects added.new ≡ stored_objects added.old }
{
    match added.list() {
        Ok(more) if more.as_slice().is_empty() => listed_as(names.clone().ok()),
        Ok(_more) => Reply::Memory,
        Err(fault) => reply_of(fault),
    }
}

/// What stands in the folder under a name. It is read where it was listed, and then has to stand; a name that wasn't
/// listed may have nothing.
fn found_in<F: Folder>(
    folder: &mut F,
    names: &Names,
    name: &String,
) -> Result<Option<Vec<u8>>, LoadFault>
    ensures object { F.is_steady folder.old → IfOk result (λ found. option_map (λ bytes. bytes.items) found ≡ object_at (F.objects folder.old) (string_bytes name.now)) }
    ensures untouched { F.is_steady folder.old → F.objects folder.new ≡ F.objects folder.old }
    ensures steady { F.is_steady folder.old → F.is_steady folder.new }
    ensures faults { CountsLoad result (F.fault_count folder.old) (F.fault_count folder.new) }
    ensures never_fails { F.is_reliable folder.old → IsNotLoaded result → ⊥ }
    ensures stays_reliable { F.is_reliable folder.old → F.is_reliable folder.new }
    ensures opened { IfOk result (λ found. (call : FolderCall) × F.makes folder.old call folder.new
        × IsOpened (listed names.now) (string_bytes name.now) (option_map (λ bytes. bytes.items) found) call) }
    ensures looked { IfErr result (λ _. (calls : List FolderCall) × Traced F.makes folder.old calls folder.new × MakeNone calls) }
{
    if names.as_slice().binary_search(name).is_ok() {
        Ok(folder.read(name.as_str())?)
    } else {
        Ok(folder.find(name.as_str())?)
    }
}

/// What stands under a name.
fn get_beside<F: Folder>(
    folder: &mut F,
    names: &Names,
    added: &mut MemoryStore,
    name: &String,
) -> Result<Reply, LoadFault>
    ensures kind { IfOk result (λ reply. IsAnswerOf getting (told_view reply)) }
    ensures never_lost { IfOk result (λ reply. is_lost (told_view reply) ≡ false) }
    ensures answers { F.is_steady folder.old → IfOk result (λ reply. Answers (with_beside (F.objects folder.old) (stored_objects added.old), []) (get_object (string_bytes name.now)) (told_view reply)
        (with_beside (F.objects folder.old) (stored_objects added.new), [])) }
    ensures kept { stored_objects added.new ≡ stored_objects added.old }
    ensures untouched { F.is_steady folder.old → F.objects folder.new ≡ F.objects folder.old }
    ensures steady { F.is_steady folder.old → F.is_steady folder.new }
    ensures faults { CountsLoad result (F.fault_count folder.old) (F.fault_count folder.new) }
    ensures never_fails { F.is_reliable folder.old → IsNotLoaded result → ⊥ }
    ensures stays_reliable { F.is_reliable folder.old → F.is_reliable folder.new }
    ensures heard { IfOk result (λ reply. (calls : List FolderCall) × Traced F.makes folder.old calls folder.new
        × HearsCall (listed names.now) (stored_objects added.old) (get_object (string_bytes name.now)) (told_view reply) calls) }
    ensures looked { IfErr result (λ _. (calls : List FolderCall) × Traced F.makes folder.old calls folder.new × MakeNone calls) }
{
    if let Some(bytes) = found_in(folder, names, name)? {
        return Ok(Reply::Object(Some(bytes)));
    }
    match added.get(name.as_str()) {
        Ok(found) => Ok(Reply::Object(found)),
        Err(fault) => Ok(reply_of(fault)),
    }
}

/// Puts bytes beside the folder, unless the name stands in either. What stands is told behind one more listing, which
/// syncs it on a disk: its writer may not have done so yet.
fn put_beside<F: Folder>(
    folder: &mut F,
    added: &mut MemoryStore,
    name: &str,
    bytes: Vec<u8>,
) -> Result<Reply, LoadFault>
    ensures kind { IfOk result (λ reply. IsAnswerOf putting (told_view reply)) }
    ensures never_lost { IfOk result (λ reply. is_lost (told_view reply) ≡ false) }
    ensures answers { F.is_steady folder.old → IfOk result (λ reply. AnswersPut (with_beside (F.objects folder.old) (stored_objects added.old), []) name.now bytes.items (told_view reply)
        (with_beside (F.objects folder.old) (stored_objects added.new), [])) }
    ensures apart { F.is_steady folder.old → AreApart (F.objects folder.old) (stored_objects added.old) → AreApart (F.objects folder.old) (stored_objects added.new) }
    ensures put { IfOk result (λ reply. stored_objects added.new ≡ put_named (stored_objects added.old) name.now bytes.items (told_view reply)) }
    ensures untouched { F.is_steady folder.old → F.objects folder.new ≡ F.objects folder.old }
    ensures steady { F.is_steady folder.old → F.is_steady folder.new }
    ensures faults { CountsLoad result (F.fault_count folder.old) (F.fault_count folder.new) }
    ensures never_fails { F.is_reliable folder.old → IsNotLoaded result → ⊥ }
    ensures stays_reliable { F.is_reliable folder.old → F.is_reliable folder.new }
    ensures heard { IfOk result (λ reply. (calls : List FolderCall) × Traced F.makes folder.old calls folder.new
        × HearsPut (stored_objects added.old) name.now (told_view reply) calls) }
    ensures looked { IfErr result (λ _. (calls : List FolderCall) × Traced F.makes folder.old calls folder.new × MakeNone calls) }
{
    if folder.find(name)?.is_some() {
        let _names = folder.names()?;
        return Ok(Reply::Put(Put::Exists));
    }
    match added.put_absent(name, bytes) {
        Ok(put) => Ok(Reply::Put(put)),
        Err(fault) => Ok(reply_of(fault)),
    }
}

/// Makes the call over a folder, which has these names, and what stands beside it.
fn ask_beside<F: Folder>(
    alloc: Global,
    folder: &mut F,
    names: &Names,
    added: &mut MemoryStore,
    request: Request,
) -> Result<Reply, LoadFault>
    ensures kind { IfOk result (λ reply. IsAnswerOf (kind_of (asked_view request)) (told_view reply)) }
    ensures never_lost { IfOk result (λ reply. is_lost (told_view reply) ≡ false) }
    ensures answers { F.is_steady folder.old → listed names.now ≡ names_of (F.objects folder.old) → IfOk result (λ reply. Answers (with_beside (F.objects folder.old) (stored_objects added.old), []) (asked_view request) (told_view reply)
        (with_beside (F.objects folder.old) (stored_objects added.new), [])) }
    ensures apart { F.is_steady folder.old → AreApart (F.objects folder.old) (stored_objects added.old) → AreApart (F.objects folder.old) (stored_objects added.new) }
    ensures put { IfOk result (λ reply. stored_objects added.new ≡ put_so (stored_objects added.old) (asked_view request) (told_view reply)) }
    ensures untouched { F.is_steady folder.old → F.objects folder.new ≡ F.objects folder.old }
    ensures steady { F.is_steady folder.old → F.is_steady folder.new }
    ensures faults { CountsLoad result (F.fault_count folder.old) (F.fault_count folder.new) }
    ensures never_fails { F.is_reliable folder.old → IsNotLoaded result → ⊥ }
    ensures stays_reliable { F.is_reliable folder.old → F.is_reliable folder.new }
    ensures heard { IfOk result (λ reply. (calls : List FolderCall) × Traced F.makes folder.old calls folder.new
        × HearsCall (listed names.now) (stored_objects added.old) (asked_view request) (told_view reply) calls) }
    ensures looked { IfErr result (λ _. (calls : List FolderCall) × Traced F.makes folder.old calls folder.new × MakeNone calls) }
{
    match request {
        Request::List => Ok(list_beside(names, added)),
        Request::Get(name) => get_beside(folder, names, added, &name),
        Request::PutFile(name, bytes) => put_beside(folder, added, name.as_str(), bytes),
        Request::PutCommit(version, bytes) => match commit_name(alloc, version) {
            Ok(name) => put_beside(folder, added, name.as_str(), bytes),
            Err(_error) => Ok(Reply::Memory),
        },
    }
}

/// Drives a session over a folder's files to its end: each call is made over the folder, but what is put stands in
/// memory beside it, to be saved behind the session. Where a call of the folder fails the fault is that call's, and
/// nothing was put.
///
/// The folder is listed first, and its names are what the session is told where it asks for them. A file is opened
/// where the session asks for that one, or where it puts one of that name; where such a one stands the folder is listed
/// once more. Beside that and the session, a call takes time logarithmic in the number of names.
pub fn drive_beside<F: Folder, N: Session>(
    alloc: Global,
    folder: &mut F,
    session: &mut N,
) -> Result<Beside<N::Outcome>, LoadFault>
    requires new { N.awaits session.old ≡ None }
    requires unended { N.done session.old ≡ false }
    // Over a steady folder it was driven as over a store in memory that has the folder's objects.
    ensures driven { F.is_steady folder.old → EndsOver N.asks N.ends N.lost (λ before. N.fits before session.old [] None) (N.job session.old) (N.left session.old) (F.objects folder.old) result }
    ensures talks { EndsBeside N.asks N.ends (λ calls. Traced F.makes folder.old calls folder.new) (λ before. N.fits before session.old [] None) (N.job session.old) (N.left session.old) result }
    ensures ended { IfOk result (λ ended. N.done session.new ≡ true) }
    ensures never_lost { IfOk result (λ ended. N.lost ended.outcome ≡ false) }
    ensures same { N.job session.new ≡ N.job session.old }
    ensures over { OnlyLooks F.objects F.is_steady F.is_reliable F.fault_count folder.old folder.new result }
{
    a_store_answers_as_any_store_may();
    let Some(names) = Names::rising(alloc, folder.names()?)? else {
        return Err(LoadFault::Memory);
    };
    let mut added = MemoryStore::new(alloc);
    let mut reply = None;
    'calls: loop {
        match session.next(reply) {
            Step::Done(outcome) => return Ok(Beside { outcome, added }),
            Step::Ask(request) => reply = Some(ask_beside(
                alloc, folder, &names, &mut added, request,
            )?),
        }
    }
}
