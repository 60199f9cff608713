//! Searching the operations of runs for the first that doesn't commute forward.
ghost use Rattle.std.specs.Prelude.{◌↔◌, IsNone, IsTrue};
ghost use Rattle.std.specs.Option.{IfSome};
ghost use Rattle.std.specs.List.{All, filter};
ghost use Rattle.objects.specs.Entries.{CommuteForward, CommutesWith};
ghost use Rattle.explain.specs.Why.{IsFirstWithout};
ghost use Rattle.explain.specs.Places.{place_view, places_view};

use crate::places::PlacedOperation;
use committed::{Committed, MarkedEntry};
use objects::{Entry, commute};

/// The first operation that doesn't commute forward with all of these entries, if there is one.
pub(crate) fn first_late<'p>(
    places: &'p [PlacedOperation],
    nets: &Committed,
) -> Option<&'p PlacedOperation>
    ensures found { IfSome result (λ place. IsFirstWithout (λ p.
        CommutesWith p.entry nets.now) (places_view places.now) (place_view place.now)) }
    ensures none { IsNone result → All (λ p. CommutesWith p.entry nets.now)
        (places_view places.now) }
{
    for place in places.iter() {
        if !commutes_with(&place.entry, nets) {
            return Some(place);
        }
    }
    None
}

// Whether the entry commutes forward with all of these.
fn commutes_with(entry: &Entry, nets: &Committed) -> bool
    ensures { IsTrue result ↔ CommutesWith entry.now nets.now }
{
    let marked = [MarkedEntry::of(entry)];
    nets.stands(&marked, nets.len())
}

/// The first operation of those that are left with which the entry doesn't commute forward, if
/// there is one.
pub(crate) fn first_early<'p>(
    places: &'p [PlacedOperation],
    late: &Entry,
) -> Option<&'p PlacedOperation>
    ensures found { IfSome result (λ place. IsFirstWithout (λ p.
        CommuteForward late.now p.entry) (filter (λ p.
        p.left) (places_view places.now)) (place_view place.now)) }
    ensures none { IsNone result → All (λ p. CommuteForward late.now p.entry) (filter (λ p.
        p.left) (places_view places.now)) }
{
    for place in places {
        if place.fate.is_left() && !commute(late, &place.entry) {
            return Some(place);
        }
    }
    None
}
