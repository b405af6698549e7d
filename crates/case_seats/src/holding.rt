//! Seats with their receipts, taken from their places and put back.

ghost use Rattle.std.specs.Prelude.{IfOk};
ghost use Rattle.log_hub.specs.Finishing.{AreShown};
ghost use Rattle.case_seats.specs.Keeping.{AreKept};

use crate::holder::Holder;
use log_hub::{Naming, Receipt, Seat};
use std::alloc::{AllocError, Global};

/// Takes the seats of these places, from the last to the first, and all receipts.
pub fn gathered<J: Naming>(
    alloc: Global,
    places: Vec<Option<Holder<J>>>,
) -> Result<(Vec<Seat<J>>, Vec<Receipt>), AllocError>
    ensures { IfOk result (λ all. AreShown all.1.items all.0.items) }
{
    let mut seats = Vec::new(alloc);
    let mut receipts = Vec::new(alloc);
    let mut places = places;
    while let Some(place) = places.pop() {
        if let Some(holder) = place {
            let (seat, more) = holder.into_parts();
            let mut more = more;
            seats.push(seat)?;
            receipts.append(&mut more)?;
        }
    }
    Ok((seats, receipts))
}

/// Takes the seats of these places, from the last to the first, and beside each its receipts.
pub fn parted<J: Naming>(
    alloc: Global,
    places: Vec<Option<Holder<J>>>,
) -> Result<(Vec<Seat<J>>, Vec<Vec<Receipt>>), AllocError>
    ensures { IfOk result (λ all. AreKept all.1.items all.0.items) }
{
    let mut seats = Vec::new(alloc);
    let mut kept = Vec::new(alloc);
    let mut places = places;
    while let Some(place) = places.pop() {
        if let Some(holder) = place {
            let (seat, receipts) = holder.into_parts();
            seats.push(seat)?;
            kept.push(receipts)?;
        }
    }
    Ok((seats, kept))
}

/// Gives seats their receipts again, and each its place, from the last seat to the first.
pub fn placed<J: Naming>(
    alloc: Global,
    seats: Vec<Seat<J>>,
    kept: Vec<Vec<Receipt>>,
) -> Result<Vec<Option<Holder<J>>>, AllocError>
    requires { AreKept kept.items seats.items }
{
    let mut places = Vec::new(alloc);
    let mut seats = seats;
    let mut kept = kept;
    while let Some(seat) = seats.pop() {
        match kept.pop() {
            Some(receipts) => places.push(Some(Holder::of_parts(alloc, seat, receipts)))?,
            None => unreachable!(),
        }
    }
    Ok(places)
}
