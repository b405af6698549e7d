//! What may happen in a world.

use table_jobs::Job;

/// How a call is answered, if there is memory for it: else that memory ran out waits.
#[derive(Clone, Copy)]
pub enum How {
    /// It takes effect, and its answer waits.
    Once,
    /// It takes effect twice, and the second answer waits.
    Twice,
    /// A put goes in flight, and that it was lost waits. A list or a get is lost.
    Late,
    /// It has no effect, and that it was lost waits.
    Lost,
    /// It has no effect, and that memory ran out waits.
    Short,
}

/// What happens. Actors and puts in flight go by number; an event that doesn't fit changes nothing.
#[derive(Drop)]
pub enum Event {
    /// The actor begins a session, in place of an older one. Nothing is asked for yet.
    Begin { actor: u64, job: Job<'static> },
    /// The actor's session is dropped.
    Die { actor: u64 },
    /// The call that the actor's session asks for is answered in this way.
    Act { actor: u64, how: How },
    /// The actor's session makes its first step, or takes the answer that waits.
    Answer { actor: u64 },
    /// It is told in place of that answer that the call was lost.
    LoseAnswer { actor: u64 },
    /// The put in flight of this number, from 0 in the order in which they were sent, takes effect. It stays in flight.
    Land { place: usize },
}
