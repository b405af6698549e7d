//! Laws of sound stores that grow: what stood stands, and what was told of it stays true.

ghost use Rattle.std.specs.Prelude.{◌≡◌, ◌≤◌, ℕ, List, [], ◌∷◌, ◌++◌, true, Some, Contains, slice_get};
ghost use Rattle.store_core.specs.Objects.{Objects, HasObjectsOf};
ghost use Rattle.table_model.specs.Appends.{TellsAppend, TellsClose};
ghost use Rattle.table_model.specs.Reads.{is_offset, position};
ghost use Rattle.table_model.specs.Table.{Batch, ToldNumber, Entry, batches, is_stream_closed, last_told};
ghost use Rattle.table_model.specs.declared.reading.Offset.{Offset};
ghost use Rattle.table_model.specs.declared.table.AppendAnswer.{AppendAnswer};
ghost use Rattle.table_model.specs.declared.table.Closing.{Closing};
ghost use Rattle.table_store.specs.Holds.{Holds};
ghost use Rattle.table_store.specs.Schema.{Schema};
ghost use Rattle.log_laws.specs.Sound.{IsSoundStore};

/// Where a store has all objects of a sound one and maybe more, its table begins with the sound one's: the same entries
/// come first, the schema is the same unless the first table has no entry, and each place that a read of the first can
/// begin at is one of the second, with as many rows before it.
pub fn a_sound_table_grows_at_its_end()
    ensures front { (objects more : Objects) (schema other : Schema) (entries others : List Entry) → IsSoundStore objects → HasObjectsOf objects more → Holds objects schema entries → Holds more other others
        → (later : List Entry) × (others ≡ entries ++ later) }
    ensures schema { (objects more : Objects) (schema other : Schema) (first : Entry) (entries others : List Entry) → IsSoundStore objects → HasObjectsOf objects more
        → Holds objects schema (first ∷ entries) → Holds more other others → schema ≡ other }
    ensures offsets { (objects more : Objects) (schema other : Schema) (entries others : List Entry) (offset : Offset) → IsSoundStore objects → HasObjectsOf objects more → Holds objects schema entries → Holds more other others
        → is_offset offset entries ≡ true → (is_offset offset others ≡ true) × (position offset others ≡ position offset entries) }
{}

/// What a sound store's table has, the table of each store has that it grows to: a version stays the entry that it is,
/// a batch stays, of whatever number, and a stream that is closed stays closed. So what an append or a close was
/// answered stays true: its version, that the batch is told already, that a greater number of the application is, that
/// its number is with other rows or none, that the stream is closed. And an application's last number never falls while
/// the store stays sound.
pub fn what_a_sound_table_has_stays()
    ensures version { (objects more : Objects) (schema other : Schema) (entries others : List Entry) (version : ℕ) (entry : Entry) → IsSoundStore objects → HasObjectsOf objects more → Holds objects schema entries
        → Holds more other others → slice_get entries version ≡ Some entry → slice_get others version ≡ Some entry }
    ensures batch { (objects more : Objects) (schema other : Schema) (entries others : List Entry) (b : Batch) → IsSoundStore objects → HasObjectsOf objects more → Holds objects schema entries
        → Holds more other others → Contains (batches entries) b → Contains (batches others) b }
    ensures closed { (objects more : Objects) (schema other : Schema) (entries others : List Entry) (application : List ℕ) → IsSoundStore objects → HasObjectsOf objects more → Holds objects schema entries
        → Holds more other others → is_stream_closed application entries ≡ true → is_stream_closed application others ≡ true }
    ensures append { (objects more : Objects) (schema other : Schema) (entries others : List Entry) (answer : AppendAnswer) (b : Batch) → IsSoundStore objects → HasObjectsOf objects more → Holds objects schema entries
        → Holds more other others → TellsAppend answer b entries → TellsAppend answer b others }
    ensures close { (objects more : Objects) (schema other : Schema) (entries others : List Entry) (answer : Closing) (application : List ℕ) → IsSoundStore objects → HasObjectsOf objects more → Holds objects schema entries
        → Holds more other others → TellsClose answer application entries → TellsClose answer application others }
    ensures number { (objects more : Objects) (schema other : Schema) (entries others : List Entry) (t : ToldNumber) → IsSoundStore objects → IsSoundStore more → HasObjectsOf objects more → Holds objects schema entries
        → Holds more other others → last_told t.application entries ≡ Some t
        → (u : ToldNumber) × (last_told t.application others ≡ Some u) × (t.number ≤ u.number) }
{}
