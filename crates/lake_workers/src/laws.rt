//! Laws of what a seat has seen. Each is a function that does nothing, whose contract is the law.

ghost use Rattle.std.specs.Prelude.{◌≡◌, [], Option};
ghost use Rattle.store_core.specs.Objects.{Objects};
ghost use Rattle.session_core.specs.Talks.{Bears, Talk};
ghost use Rattle.table_log.specs.declared.loading.Loaded.{Loaded};
ghost use Rattle.log_reading.specs.LogCache.{HoldsFile};
ghost use Rattle.log_reading.specs.Logs.{IsPastLog};
ghost use Rattle.log_reading.specs.declared.kept_file.KeptFile.{KeptFile};
ghost use Rattle.log_reading.specs.declared.log.Log.{Log};
ghost use Rattle.log_hub.specs.Lock.{IsFrontOf};
ghost use Rattle.log_hub.specs.Seats.{HasSeen, MayStand};
ghost use Rattle.log_hub.specs.Sights.{Seen};
ghost use Rattle.table_jobs.specs.Jobs.{Job};
ghost use Rattle.table_jobs.specs.Sessions.{end_view};
ghost use Rattle.lake_workers.specs.Driving.{IsDriven, TalksThrough};
ghost use Rattle.lake_workers.specs.Following.{IsKnownAt, Learns};
ghost use Rattle.lake_workers.specs.Reading.{IsLogKnownAt};
ghost use Rattle.lake_workers.specs.declared.driven.Driven.{Driven};

/// A store that has what a seat has seen bears each talk that was had by calls which the seat made last. What may stand
/// behind them might stand before; the seat's number is the same, the store at the hub's opening, too, and the front of
/// the history that it had seen begins the one that it has seen then.
pub fn what_a_seat_has_seen_bears_its_talk()
    ensures borne { (old new : Seen) (talk : Talk) (objects : Objects) → TalksThrough old talk new → HasSeen objects new → Bears objects talk }
    ensures stood { (old new : Seen) (talk : Talk) (objects : Objects) → TalksThrough old talk new → MayStand objects new → MayStand objects old }
    ensures same { (old new : Seen) (talk : Talk) → TalksThrough old talk new → (new.number ≡ old.number) × (new.opening ≡ old.opening) × IsFrontOf old.front new.front }
{}

/// What a session that was driven through a seat tells of the log is known where the seat is then, and stays so behind
/// each call that it makes: another session may begin with it.
pub fn what_was_learnt_goes_before()
    ensures learnt { (before : Talk) (job : Job) (old new : Seen) (driven : Driven) (known : Loaded) → IsDriven before job old new driven → Learns (end_view driven.end) known → IsKnownAt new known }
    ensures stays { (old new : Seen) (talk : Talk) (known : Loaded) → IsKnownAt old known → TalksThrough old talk new → IsKnownAt new known }
{}

/// What is known of a log commit by commit stays known where a seat is, behind each call that it makes; of a log of
/// which nothing is known it is so at each seat.
pub fn what_is_known_of_a_log_stays()
    ensures begins { (s : Seen) (log : Log) (file : Option KeptFile) → log.standing.items ≡ [] → ((objects : Objects) → IsPastLog objects log) → ((objects : Objects) → HoldsFile objects file) → IsLogKnownAt s log file }
    ensures stays { (old new : Seen) (talk : Talk) (log : Log) (file : Option KeptFile) → IsLogKnownAt old log file → TalksThrough old talk new → IsLogKnownAt new log file }
{}
