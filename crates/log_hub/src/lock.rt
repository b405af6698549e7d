//! The lock: a channel with room for one book, in which the book lies while nobody has it out, and its rule.

ghost use Rattle.std.specs.Prelude.{◌≡◌, None, true, IfSome};
ghost use Rattle.crossbeam_channel.specs.Claims.{view, IsSeatAt};
ghost use Rattle.crossbeam_channel.specs.Ends.{sends_on, receives_on, ruled_capacity};
ghost use Rattle.log_hub.specs.Sights.{first_sight};
ghost use Rattle.log_hub.specs.Lock.{TakesOut, PutsBack, PutsBackUnused, MayPutBack, IsUnused};

use crossbeam_channel::protocol::{Join, Lesson, Outcome, Protocol, Split};
use crossbeam_channel::{RuledReceiver, RuledSender};
use log_book::Book;
use std::hint::spin_loop;
use std::marker::Model;
use std::sync::Wait;

/// How often it is looked for the book before anybody waits for it.
const LOOKS: u32 = 100;

/// The most pauses between two looks.
const MOST_PAUSES: u32 = 2_048;

/// What a pass knows. No value of it is made.
pub struct View;

impl Model for View {
    ghost use Rattle.log_hub.specs.Sights.{Sight, first_sight};

    ghost Value = { Sight };

    ghost view = { λ _. first_sight };
}

/// The rule.
pub struct Law;

impl Protocol<Book, View> for Law {
    ghost use Rattle.log_hub.specs.Sights.{first_sight};
    ghost use Rattle.log_hub.specs.Lock.{IsLocked};

    ghost holds = { IsLocked };

    ghost first = { first_sight };
}

/// A step that takes the book out.
pub struct Taking;

impl Outcome<Book, View> for Taking {
    ghost use Rattle.log_hub.specs.Lock.{TakesOut};

    ghost then = { TakesOut };
}

impl Lesson<Book, View> for Taking {
    ghost fact = { λ v items. Unit {0} };
}

/// A step that puts it back.
pub struct Returning;

impl Outcome<Book, View> for Returning {
    ghost use Rattle.log_hub.specs.Lock.{PutsBack};

    ghost then = { PutsBack };
}

impl Lesson<Book, View> for Returning {
    ghost fact = { λ v items. Unit {0} };
}

/// A step that puts it back as it was.
pub struct ReturningUnused;

impl Outcome<Book, View> for ReturningUnused {
    ghost use Rattle.log_hub.specs.Lock.{PutsBackUnused};

    ghost then = { PutsBackUnused };
}

impl Lesson<Book, View> for ReturningUnused {
    ghost fact = { λ v items. Unit {0} };
}

/// The first seat's pass makes another seat's.
pub struct Seating;

impl Split<View> for Seating {
    ghost use Rattle.log_hub.specs.Sights.{with_one_made, next_sight};

    ghost left = { with_one_made };

    ghost right = { next_sight };
}

/// Who has the book out takes in another, and learns that it saw a front of the book's history.
pub struct Gathering;

impl Join<View> for Gathering {
    ghost use Rattle.log_hub.specs.Sights.{spent_sight, with_one_known};

    ghost both = { with_one_known };

    ghost spent = { spent_sight };
}

impl Lesson<Book, View> for Gathering {
    ghost use Rattle.log_hub.specs.Lock.{LearnsAll};

    ghost fact = { LearnsAll };
}

pub type Inlet = RuledSender<Book, View, Law>;

pub type Outlet = RuledReceiver<Book, View, Law>;

pub type Pass = crossbeam_channel::Pass<Book, View>;

/// Takes the book out. Waits while another has it.
pub fn take_out<R: Wait>(rt: &R, outlet: &Outlet, pass: &mut Pass) -> Book
    requires seat { IsSeatAt (receives_on outlet.now) pass.old }
    requires sits { (view pass.old).sits ≡ true }
    ensures seat { IsSeatAt (receives_on outlet.now) pass.new }
    ensures taken { TakesOut (view pass.old) result (view pass.new) }
{
    if let Some(book) = look_for(rt, outlet, pass) {
        return book;
    }
    for _ in rt.forever() {
        if let Ok(book) = outlet.recv_as::<Taking, R>(rt, pass) {
            return book;
        }
    }
    unreachable!()
}

/// Takes the book out, where it lies there at one of a few looks; a wait costs more than most calls take. The looks are
/// farther and farther apart: each one takes the channel's line of memory away from the thread that has the book out.
fn look_for<R: Wait>(rt: &R, outlet: &Outlet, pass: &mut Pass) -> Option<Book>
    requires seat { IsSeatAt (receives_on outlet.now) pass.old }
    requires sits { (view pass.old).sits ≡ true }
    ensures seat { IsSeatAt (receives_on outlet.now) pass.new }
    ensures taken { IfSome result (λ book. TakesOut (view pass.old) book (view pass.new)) }
    ensures same { result ≡ None → view pass.new ≡ view pass.old }
{
    let mut pauses = 1u32;
    for _ in 0..LOOKS {
        if let Ok(book) = outlet.try_recv_as::<Taking, R>(rt, pass) {
            return Some(book);
        }
        pause(pauses);
        pauses = pauses.saturating_mul(2).min(MOST_PAUSES);
    }
    None
}

/// Lets so many pauses of a thread that spins pass.
fn pause(times: u32) {
    for _ in 0..times {
        spin_loop();
    }
}

/// Puts it back, with calls behind its history.
pub fn put_back<R: Wait>(rt: &R, inlet: &Inlet, pass: &mut Pass, mut book: Book)
    requires seat { IsSeatAt (sends_on inlet.now) pass.old }
    requires one { ruled_capacity (sends_on inlet.now) ≡ 1 }
    requires follows { MayPutBack (view pass.old) book }
    ensures seat { IsSeatAt (sends_on inlet.now) pass.new }
    ensures back { PutsBack (view pass.old) book (view pass.new) }
{
    for _ in rt.forever() {
        match inlet.send_as::<Returning, R>(rt, pass, book) {
            Ok(()) => return,
            Err(e) => book = e.into_inner(),
        }
    }
    unreachable!()
}

/// Puts it back as it was taken.
pub fn put_back_unused<R: Wait>(rt: &R, inlet: &Inlet, pass: &mut Pass, mut book: Book)
    requires seat { IsSeatAt (sends_on inlet.now) pass.old }
    requires one { ruled_capacity (sends_on inlet.now) ≡ 1 }
    requires same { IsUnused (view pass.old) book }
    ensures seat { IsSeatAt (sends_on inlet.now) pass.new }
    ensures back { PutsBackUnused (view pass.old) book (view pass.new) }
{
    for _ in rt.forever() {
        match inlet.send_as::<ReturningUnused, R>(rt, pass, book) {
            Ok(()) => return,
            Err(e) => book = e.into_inner(),
        }
    }
    unreachable!()
}
