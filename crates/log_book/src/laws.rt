//! Laws of books and histories. Each is a function that does nothing, whose contract is the law.

ghost use Rattle.std.specs.Prelude.{◌≡◌, ◌++◌, ◌∷◌};
ghost use Rattle.store_core.specs.Objects.{AreBytes, Objects, HasObjectsOf};
ghost use Rattle.session_core.specs.Talks.{Asked};
ghost use Rattle.log_laws.specs.Sound.{IsSoundStore};
ghost use Rattle.log_book.specs.Book.{BookView, IsBook, book_at};
ghost use Rattle.session_core.specs.CallEffects.{left_by_call, told_by_call};
ghost use Rattle.log_book.specs.Histories.{History, SeatCall, left_by_all};
ghost use Rattle.log_book.specs.Making.{MayMake};

use log_laws::{a_data_file_lands, a_sound_checkpoint_lands, an_admissible_commit_lands};

/// A call that may be made leaves a sound store sound.
pub fn a_call_keeps_a_store_sound()
    ensures { (objects : Objects) (asked : Asked) → IsSoundStore objects → MayMake objects asked → IsSoundStore (left_by_call objects asked) }
{
    an_admissible_commit_lands();
    a_data_file_lands();
    a_sound_checkpoint_lands();
}

/// What all calls of a history leave is what the later ones leave of what the earlier ones left.
pub fn what_a_history_leaves()
    ensures { (objects : Objects) (front rest : History) → left_by_all objects (front ++ rest) ≡ left_by_all (left_by_all objects front) rest }
{}

/// Objects only grow along a history: what stood stands, with its bytes.
pub fn what_stands_stays_along_a_history()
    ensures { (objects : Objects) (history : History) → HasObjectsOf objects (left_by_all objects history) }
{}

/// Each front of a book's history replays to a sound store, of which the book's objects have all; with it the front is
/// a book of its own, and of bytes. The call behind it was told what a store of one thread tells there.
pub fn each_front_is_a_book()
    ensures book { (book : BookView) (front rest : History) → IsBook book → book.history ≡ front ++ rest → IsBook (book_at book (left_by_all book.opening front) front) }
    ensures sound { (book : BookView) (front rest : History) → IsBook book → book.history ≡ front ++ rest → IsSoundStore (left_by_all book.opening front) }
    ensures grown { (book : BookView) (front rest : History) → IsBook book → book.history ≡ front ++ rest → HasObjectsOf (left_by_all book.opening front) book.objects }
    ensures told { (book : BookView) (front rest : History) (call : SeatCall) → IsBook book → book.history ≡ front ++ call ∷ rest → call.told ≡ told_by_call (left_by_all book.opening front) call.asked }
    ensures bytes { (book : BookView) (front rest : History) → IsBook book → book.history ≡ front ++ rest → AreBytes (left_by_all book.opening front) }
{
    a_call_keeps_a_store_sound();
}
