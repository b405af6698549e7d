//! One call of a store, as a session asks for it.
ghost use Rattle.std.specs.Prelude.{◌≡◌};
ghost use Rattle.session_core.specs.Stores.{Answers, AnswersPut, MakesCall, MayAnswer, MayAnswerPut};
ghost use Rattle.session_core.specs.Talks.{CountsTold, IsAnswerOf, asked_view, fault_reply, kind_of, putting, told_view};

use std::alloc::Global;
use store_core::{Names, Put, Store, StoreFault, commit_name};

/// A call that a session asks for.
#[derive(Drop)]
pub enum Request {
    /// All names that stand.
    List,
    /// The bytes under a name.
    Get(String),
    /// Bytes for a name, unless it stands: a data file or a checkpoint.
    PutFile(String, Vec<u8>),
    /// Bytes for the commit of a version, unless it stands.
    PutCommit(u64, Vec<u8>),
}

/// What a session is told of a call.
#[derive(Drop)]
pub enum Reply {
    /// All names that stand, in the order of their bytes.
    Names(Names),
    /// The bytes under the name, or `None` where it is absent.
    Object(Option<Vec<u8>>),
    /// How the put went.
    Put(Put),
    /// The call was lost: a put may have landed, or land later, or never.
    Lost,
    /// Memory ran out, and nothing changed.
    Memory,
}

impl Reply {
    /// What stands for a call that has no answer.
    fn of_fault(fault: StoreFault) -> Reply
        ensures { result ≡ fault_reply fault }
    {
        match fault {
            StoreFault::Lost => Reply::Lost,
            StoreFault::Memory => Reply::Memory,
        }
    }
}

/// Makes the call over a store. What is put is moved into it, and what it answers is handed on as it is. `Memory` is
/// told also where there is none for a commit's name, and the store isn't asked then.
pub fn ask<S: Store>(alloc: Global, store: &mut S, request: Request) -> Reply
    ensures kind { IsAnswerOf (kind_of (asked_view request)) (told_view result) }
    ensures answer { MayAnswer (S.objects store.old, S.in_flight store.old) (asked_view request) (told_view result)
        (S.objects store.new, S.in_flight store.new) }
    // A store that loses no call gives exactly this answer.
    ensures exact { S.is_reliable store.old → Answers (S.objects store.old, S.in_flight store.old) (asked_view request)
        (told_view result) (S.objects store.new, S.in_flight store.new) }
    ensures counted { CountsTold (told_view result) (S.fault_count store.old) (S.fault_count store.new) }
    ensures called { MakesCall S.makes store.old (asked_view request) (told_view result) store.new }
    ensures reliable { S.is_reliable store.old → S.is_reliable store.new }
{
    match request {
        Request::List => match store.list() {
            Ok(names) => Reply::Names(names),
            Err(fault) => Reply::of_fault(fault),
        },
        Request::Get(name) => match store.get(&name) {
            Ok(found) => Reply::Object(found),
            Err(fault) => Reply::of_fault(fault),
        },
        Request::PutFile(name, bytes) => put(store, &name, bytes),
        Request::PutCommit(version, bytes) => match commit_name(alloc, version) {
            Ok(name) => put(store, &name, bytes),
            Err(_error) => Reply::Memory,
        },
    }
}

fn put<S: Store>(store: &mut S, name: &str, bytes: Vec<u8>) -> Reply
    ensures kind { IsAnswerOf putting (told_view result) }
    ensures answer { MayAnswerPut (S.objects store.old, S.in_flight store.old) name.now bytes.items (told_view result)
        (S.objects store.new, S.in_flight store.new) }
    ensures exact { S.is_reliable store.old → AnswersPut (S.objects store.old, S.in_flight store.old) name.now bytes.items
        (told_view result) (S.objects store.new, S.in_flight store.new) }
    ensures counted { CountsTold (told_view result) (S.fault_count store.old) (S.fault_count store.new) }
    ensures called { S.makes store.old store.new }
    ensures reliable { S.is_reliable store.old → S.is_reliable store.new }
{
    match store.put_absent(name, bytes) {
        Ok(put) => Reply::Put(put),
        Err(fault) => Reply::of_fault(fault),
    }
}
