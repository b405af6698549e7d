//! What is so of every world, whatever happened in it: laws, each a function that does nothing.

ghost use Rattle.std.specs.Prelude.{◌≡◌, ℕ, List, ◌∷◌, ◌++◌, None, Option, Some, Contains};
ghost use Rattle.store_core.specs.Objects.{AreBytes, HasObjectsOf, object_at};
ghost use Rattle.delta_actions.specs.Names.{data_file_name};
ghost use Rattle.table_model.specs.Table.{Entry};
ghost use Rattle.table_store.specs.Holds.{Holds};
ghost use Rattle.table_store.specs.Schema.{Schema};
ghost use Rattle.log_laws.specs.Sound.{IsSoundStore};
ghost use Rattle.session_laws.specs.Jobs.{Job, Outcome};
ghost use Rattle.stream_model.specs.Actors.{EndsSo, IsBorneBy};
ghost use Rattle.stream_model.specs.Effects.{HasEffect};
ghost use Rattle.stream_model.specs.Events.{Event, FitsWorld, HasActor, Happens, IsWorldOf, Ran};
ghost use Rattle.stream_model.specs.Headline.{IsHeadline};
ghost use Rattle.stream_model.specs.Puts.{HasTable, IsGoodPut, IsSubmittedFile};
ghost use Rattle.stream_model.specs.Worlds.{Actor, World, ended};

use log_laws::{
    a_data_file_lands, a_sound_checkpoint_lands, a_sound_checkpoint_stays_sound,
    a_sound_table_grows_at_its_end, an_admissible_commit_lands,
    an_admissible_commit_stays_admissible, an_empty_store_is_sound,
};
use session_core::what_is_borne_twice_is_borne_at_once;
use session_laws::what_a_session_may;
use table_model::{a_part_from_the_beginning_is_a_front, parts_that_follow_are_one};

/// Over every list of events, of any length and with any number of actors, from a world in which nothing stands:
/// - the store is sound, its checkpoints too (`sound`), and each object is of numbers of eight bits (`bytes`);
/// - it bears what each session was told, and the talk by which it knew something of the log when it began; each call
///   that a session had an answer to is one that its job asks for there; that is the job that was handed in, but for
///   what is known of the log, and the one handed in can begin; a read that listed names was shown a sound store, as it
///   stood then, which bore what was known before, whose files can be read and which has grown since (all of this is
///   `borne`); so what a job does next by its talk it may do, as `what_a_session_may` has it;
/// - each put in flight may take effect at any time: it is a file of a batch that was handed in, an admissible commit
///   of a creation or a close that a job asks for or of batches of one job, or a checkpoint of the log's commits up to
///   its version (`flight`);
/// - each data file has the rows of a batch of its name that was handed in, for the table that stands (`files`);
/// - of the table that the store holds (by `sound` there is one, without versions until a creation takes effect): where
///   it has a version, its schema is what the text of a creation that was handed in is read as; each batch stands once,
///   each application's in rising number, and none behind its close; each batch that was acknowledged was handed
///   in, and stands; each that stands was handed in, with these rows; and where an append told that its batch was put as
///   a version, stands already, is below a number that stands (S1) or comes behind the close of its stream (S2), or a
///   close that it was put as a version or its stream was closed already, that is so; each read that wasn't refused
///   handed out a part of that table, which has a version then, from its offset up to where it ended, and the table's
///   schema with it; and reads that follow one another from an offset of that table, each from where the one before
///   ended, were handed its rows from the first offset to the last, which from the beginning are the log's first rows,
///   each once, in the order of the log (`headline`). Of other refusals it says nothing;
/// - a read that has ended and had listed names told of the versions that were listed, which all stand: by the table's
///   schema their rows from its offset on, as many as it was to hand out or up to the start of the version that came
///   next then; that its offset is past their end (O2), or in no file of its version (O10); where no commit was listed,
///   that version 0 is missing (O12); that a call was lost, right behind one that was; or that memory ran out. No other
///   refusal of a read comes;
/// - a session that has ended, and whose list had a commit, didn't tell that one is missing or can't be read; none told
///   that a winner changed the schema; and one told that a checkpoint isn't put for what the table asks of its writers
///   only where a field has `delta.invariants` (`ends`, of reads too).
///
/// A put takes effect on a free name alone; when it takes effect, a get gives what stands under its name, and a list
/// all names that stand; and all objects are put by these sessions, of numbers of eight bits, as a program's bytes are.
/// Jobs are creations, loads, checkpoints, appends of a batch, closes and reads of rows. A session begins with nothing
/// known of the log, or with what some talk told that the store bears, an earlier session's, say. An append's and a
/// close's application is a text, and they try a version at least: another job can't begin.
pub fn every_world()
    ensures sound { (events : List Event) (outs : List (Job × Outcome)) (w : World) → IsWorldOf events outs w → IsSoundStore w.objects }
    ensures bytes { (events : List Event) (outs : List (Job × Outcome)) (w : World) → IsWorldOf events outs w → AreBytes w.objects }
    ensures borne { (events : List Event) (outs : List (Job × Outcome)) (w : World) → IsWorldOf events outs w → (name : ℕ) (actor : Actor) → HasActor w name actor → IsBorneBy w.objects actor }
    ensures flight { (events : List Event) (outs : List (Job × Outcome)) (w : World) → IsWorldOf events outs w → (put : List ℕ × List ℕ) → Contains w.flight put → IsGoodPut events w.objects put.0 put.1 }
    ensures files { (events : List Event) (outs : List (Job × Outcome)) (w : World) → IsWorldOf events outs w
        → (application : List ℕ) (number : ℕ) (bytes : List ℕ) → object_at w.objects (data_file_name application number) ≡ Some bytes
        → (schema : Schema) × HasTable w.objects schema × IsSubmittedFile events schema (data_file_name application number) bytes }
    ensures headline { (events : List Event) (outs : List (Job × Outcome)) (w : World) → IsWorldOf events outs w → (schema : Schema) (entries : List Entry) → Holds w.objects schema entries → IsHeadline events outs schema entries }
    ensures ends { (events : List Event) (outs : List (Job × Outcome)) (w : World) → IsWorldOf events outs w → (name : ℕ) (actor : Actor) (outcome : Outcome) → HasActor w name actor → actor.hand ≡ ended outcome
        → EndsSo w.objects actor outcome }
{
    an_empty_store_is_sound();
    an_admissible_commit_lands();
    an_admissible_commit_stays_admissible();
    a_data_file_lands();
    a_sound_checkpoint_lands();
    a_sound_checkpoint_stays_sound();
    what_is_borne_twice_is_borne_at_once();
    what_a_session_may();
    parts_that_follow_are_one();
    a_part_from_the_beginning_is_a_front();
}

/// Whatever happens, an object that stands keeps its bytes (`objects`), and the log of each later world begins with the
/// log that stood (`log`), with the same schema where that had a version (`schema`). A later world is a world of the
/// earlier events followed by the later ones (`world`), so what was acknowledged stands there once, too.
pub fn what_stands_in_a_world_stays()
    ensures objects { (w later : World) (events : List Event) (outs : List (Job × Outcome)) → Ran w events outs later → HasObjectsOf w.objects later.objects }
    ensures world { (events more : List Event) (outs told : List (Job × Outcome)) (w later : World) → IsWorldOf events outs w → Ran w more told later → IsWorldOf (events ++ more) (outs ++ told) later }
    ensures log { (events more : List Event) (outs told : List (Job × Outcome)) (w later : World) → IsWorldOf events outs w → Ran w more told later → (schema other : Schema) (entries others : List Entry)
        → Holds w.objects schema entries → Holds later.objects other others → (tail : List Entry) × (others ≡ entries ++ tail) }
    ensures schema { (events more : List Event) (outs told : List (Job × Outcome)) (w later : World) → IsWorldOf events outs w → Ran w more told later → (schema other : Schema) (first : Entry) (entries others : List Entry)
        → Holds w.objects schema (first ∷ entries) → Holds later.objects other others → schema ≡ other }
{
    every_world();
    a_sound_table_grows_at_its_end();
}

/// An event that fits a world has its effect there (`effect`): an actor begins, or is gone; its call is answered just
/// so, and what it puts stands or is in flight; its session makes a step, by the answer that waits or by the loss of
/// it; a put in flight takes effect, where its name is free, and stays in flight. One that doesn't fit changes nothing,
/// and tells nothing (`nothing`).
pub fn an_event_that_fits_has_its_effect()
    ensures effect { (w later : World) (event : Event) (told : Option (Job × Outcome)) → Happens w event told later → FitsWorld w event → HasEffect w event later }
    ensures nothing { (w later : World) (event : Event) (told : Option (Job × Outcome)) → Happens w event told later → (FitsWorld w event → ⊥) → (later ≡ w) × (told ≡ None) }
{}
