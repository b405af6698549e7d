//! Laws of the objects of a store, of all objects. Each is a function that does nothing, whose contract is the law;
//! `specs/ObjectLaws.antt` has the same laws for proofs to cite.
ghost use Rattle.std.specs.Prelude.{◌≡◌, ◌≢◌, ◌↔◌, ℕ, List, Some, IsSome, unwrap_or, Contains};
ghost use Rattle.std.specs.BTreeSet.{insert_key};
ghost use Rattle.store_core.specs.Objects.{Objects, IsInOrder, name_order, object_at, names_of, with_object};

/// A put makes its name stand: with the bytes that it had, or else with those that were put.
pub fn a_put_stands()
    ensures { (objects : Objects) (name bytes : List ℕ)
        → object_at (with_object objects name bytes) name ≡ Some (unwrap_or (object_at objects name) bytes) }
{}

/// A put leaves every other object as it was.
pub fn a_put_leaves_the_others()
    ensures { (objects : Objects) (name bytes other : List ℕ) → other ≢ name
        → object_at (with_object objects name bytes) other ≡ object_at objects other }
{}

/// What stands keeps its bytes, whatever is put.
pub fn what_stands_stays()
    ensures { (objects : Objects) (name bytes other kept : List ℕ) → object_at objects other ≡ Some kept
        → object_at (with_object objects name bytes) other ≡ Some kept }
{}

/// A second put under a name changes nothing, so a put that is repeated counts once.
pub fn a_second_put_changes_nothing()
    ensures { (objects : Objects) (name bytes later : List ℕ)
        → with_object (with_object objects name bytes) name later ≡ with_object objects name bytes }
{}

/// After a put the names still rise.
pub fn a_put_keeps_the_order()
    ensures { (objects : Objects) (name bytes : List ℕ) → IsInOrder objects
        → IsInOrder (with_object objects name bytes) }
{}

/// After a put its name is listed in its place among those that were listed, once.
pub fn a_put_lists_its_name()
    ensures { (objects : Objects) (name bytes : List ℕ) → IsInOrder objects
        → names_of (with_object objects name bytes) ≡ insert_key name_order (names_of objects) name }
{}

/// A name is listed just where an object stands under it.
pub fn a_name_is_listed_where_it_stands()
    ensures { (objects : Objects) (name : List ℕ) → Contains (names_of objects) name ↔ IsSome (object_at objects name) }
{}

/// The objects are a finite map: where the same stands under each name, they are equal.
pub fn the_same_under_each_name_is_the_same()
    ensures { (one other : Objects) → IsInOrder one → IsInOrder other
        → ((name : List ℕ) → object_at one name ≡ object_at other name) → one ≡ other }
{}
