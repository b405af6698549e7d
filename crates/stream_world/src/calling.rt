//! How a call of a session is answered.

ghost use Rattle.std.specs.Prelude.{◌≡◌};
ghost use Rattle.store_core.specs.Turns.{puts_sent};
ghost use Rattle.session_core.specs.Talks.{IsAnswerOf, asked_view, kind_of, told_view};
ghost use Rattle.stream_world.specs.Calling.{IsSentCall, again, is_told_out, sent_told};
ghost use Rattle.stream_world.specs.EventViews.{how_view};
ghost use Rattle.stream_world.specs.OverAnyStore.{AsksStore, MayMeet};
ghost use Rattle.stream_world.specs.Standing.{CallMeets};

use crate::event::How;
use session_core::{Reply, Request, ask};
use std::alloc::Global;
use store_core::{Flaky, Put, Store, StoreFault, commit_name};

/// Answers a call in this way, or finds no memory for it. Where it takes effect, the store below is asked, and no turn
/// is met.
pub(crate) fn answer<S: Store>(
    alloc: Global,
    store: &mut Flaky<S>,
    request: Request,
    how: How,
) -> Reply
    ensures kind { IsAnswerOf (kind_of (asked_view request)) (told_view result) }
    ensures meets { S.is_reliable store.old.store
        → CallMeets (how_view how) (asked_view request) (told_view result) (S.objects store.old.store) (puts_sent store.old) (S.objects store.new.store) (puts_sent store.new) }
    // Over any store, one that loses calls too: what it tells is told, where it is asked.
    ensures any { MayMeet (AsksStore S.makes (λ store. (S.objects store, S.in_flight store)) S.fault_count) (how_view how) (asked_view request) (told_view result)
        store.old.store store.new.store (puts_sent store.old) (puts_sent store.new) }
    ensures reliable { S.is_reliable store.old.store → S.is_reliable store.new.store }
{
    match how {
        How::Once => ask(alloc, &mut store.store, request),
        How::Twice => asked_again(ask(alloc, &mut store.store, request)),
        How::Late => send(alloc, store, request),
        How::Lost => Reply::Lost,
        How::Short => Reply::Memory,
    }
}

/// Whether it is told of a call that memory ran out, though it was to be answered otherwise.
pub(crate) fn is_told_out(how: How, reply: &Reply) -> bool
    ensures { result ≡ is_told_out (how_view how) (told_view reply.now) }
{
    match how {
        How::Short => false,
        How::Once | How::Twice | How::Late | How::Lost => matches!(reply, Reply::Memory),
    }
}

/// What is told of a call that takes effect once more, where this was told of it before: of a put that its name stands.
fn asked_again(reply: Reply) -> Reply
    ensures { told_view result ≡ again (told_view reply) }
{
    match reply {
        Reply::Put(_put) => Reply::Put(Put::Exists),
        reply => reply,
    }
}

/// A put goes in flight, and is told as lost; a list or a get is lost.
fn send<S: Store>(alloc: Global, store: &mut Flaky<S>, request: Request) -> Reply
    ensures sent { IsSentCall (asked_view request) (told_view result) (puts_sent store.old) (puts_sent store.new) }
    ensures store { store.new.store ≡ store.old.store }
{
    match request {
        Request::PutFile(name, bytes) => sent(store.send(&name, bytes)),
        Request::PutCommit(version, bytes) => match commit_name(alloc, version) {
            Ok(name) => sent(store.send(&name, bytes)),
            Err(_error) => Reply::Memory,
        },
        Request::List => Reply::Lost,
        Request::Get(_name) => Reply::Lost,
    }
}

/// What is told of a put that went in flight, or for which memory ran out.
fn sent(answer: Result<Put, StoreFault>) -> Reply
    ensures { told_view result ≡ sent_told answer }
{
    match answer {
        Ok(put) => Reply::Put(put),
        Err(StoreFault::Lost) => Reply::Lost,
        Err(StoreFault::Memory) => Reply::Memory,
    }
}
