//! Laws of what seats have seen. Each is a function that does nothing, whose contract is the law.

ghost use Rattle.std.specs.Prelude.{◌≡◌, ◌≤◌, ℕ, List, Some, length, slice_get};
ghost use Rattle.store_core.specs.Names.{commit_name, greatest_version};
ghost use Rattle.store_core.specs.Objects.{Objects, object_at};
ghost use Rattle.session_core.specs.Talks.{Asked, Told};
ghost use Rattle.table_log.specs.Counts.{commit_count};
ghost use Rattle.log_laws.specs.Sound.{IsSoundStore};
ghost use Rattle.log_book.specs.Book.{BookView, IsBook};
ghost use Rattle.log_hub.specs.Lock.{IsFrontOf, IsSeenOf};
ghost use Rattle.log_hub.specs.Seats.{Extends, HasSeen, IsSeat, floor_after, floor_seen, log_after, log_in_store, log_seen, map_after, map_seen, names_after, names_seen};
ghost use Rattle.log_hub.specs.Sights.{Seen};

/// What a seat has seen behind a call: its log, how many commits it knows to stand, what it put or was given, and the names
/// that it was told stand.
pub fn a_call_adds_to_what_was_seen()
    ensures log { (old new : Seen) (asked : Asked) (told : Told) → Extends old asked told new → log_seen new ≡ log_after (log_seen old) asked told }
    ensures floor { (old new : Seen) (asked : Asked) (told : Told) → Extends old asked told new → floor_seen new ≡ floor_after (floor_seen old) asked told }
    ensures map { (old new : Seen) (asked : Asked) (told : Told) → Extends old asked told new → map_seen new ≡ map_after (map_seen old) asked told }
    ensures names { (old new : Seen) (asked : Asked) (told : Told) → Extends old asked told new → names_seen new ≡ names_after (names_seen old) asked told }
{}

/// A seat's log only grows by a call: what stood in it at a version stands there still.
pub fn the_log_of_a_seat_only_grows()
    ensures front { (old new : Seen) (asked : Asked) (told : Told) → Extends old asked told new → IsFrontOf (log_seen old) (log_seen new) }
    ensures stays { (old new : Seen) (asked : Asked) (told : Told) (version : ℕ) (bytes : List ℕ) → Extends old asked told new
        → slice_get (log_seen old) version ≡ Some bytes → slice_get (log_seen new) version ≡ Some bytes }
{}

/// What stands in a book has all that a seat has seen, where the seat saw a front of the book's history.
pub fn a_book_has_what_its_seats_have_seen()
    ensures { (book : BookView) (s : Seen) → IsBook book → IsSeat s → IsSeenOf book.opening book.history s → HasSeen book.objects s }
{}

/// The log of a sound store has as many commits as are counted there, each at the place of its version.
pub fn the_log_of_a_sound_store()
    ensures count { (objects : Objects) → IsSoundStore objects → length (log_in_store objects) ≡ commit_count objects }
    ensures stands { (objects : Objects) (version : ℕ) (bytes : List ℕ) → IsSoundStore objects → slice_get (log_in_store objects) version ≡ Some bytes
        → object_at objects (commit_name version) ≡ Some bytes }
    ensures listed { (objects : Objects) (version : ℕ) (bytes : List ℕ) → IsSoundStore objects → version ≤ greatest_version → object_at objects (commit_name version) ≡ Some bytes
        → slice_get (log_in_store objects) version ≡ Some bytes }
{}
