//! The law on fronts, a function with an empty body whose contract is the law.
ghost use Rattle.std.specs.Prelude.{◌≡◌, ◌<◌, ℕ, List, Ok, length, true};
ghost use Rattle.store_core.specs.Objects.{IsInOrder, Objects};
ghost use Rattle.schema_tree.specs.Tree.{Tree};
ghost use Rattle.table_model.specs.declared.reading.Offset.{Offset};
ghost use Rattle.source_core.specs.SourceSessions.{read_told};
ghost use Rattle.source_core.specs.Tailing.{ReadRows};
ghost use Rattle.front_reads.specs.Fronts.{IsFrontBehind, front_of_log};

/// Where a read of the front of a log hands out as many rows as it was to at most, and that is one or more, a read of
/// the whole log hands out the same, if the whole log's table is read, as some read of no row tells, and none of its
/// versions is missing from the offset's on. All three go by checkpoints.
pub fn a_front_is_read_as_the_whole()
    ensures { (objects : Objects) (front max : ℕ) (offset end : Offset) (known others : List ℕ) (any told : Tree × ReadRows) → IsInOrder objects → IsFrontBehind objects offset.version front → 0 < max
        → read_told (record { place = end; max = 0; use_checkpoints = true; known = others }) objects ≡ Ok any
        → read_told (record { place = offset; max = max; use_checkpoints = true; known = known }) (front_of_log front objects) ≡ Ok told → length told.1.rows ≡ max
        → read_told (record { place = offset; max = max; use_checkpoints = true; known = known }) objects ≡ Ok told }
{}
