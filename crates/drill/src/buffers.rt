// Buffers to lend: filled with marks, so that it shows which places were written.
use crate::fault::Fault;
use crate::relaxation::is_same;
use rehearsal::worked::NO_RUN;
use routing::place::{Place, Reached};
use std::alloc::{AllocError, Global};
use walks::kind::CostKind;

/// What place `i` of a table or a board is filled with: absent and reached in turn.
fn marked_place<K: CostKind>(kind: &K, i: usize) -> Place<K::Cost> {
    if i % 2 == 0 {
        None
    } else {
        Some(Reached {
            cost: kind.start(),
            run: Some(NO_RUN),
        })
    }
}

/// What place `i` of a list is filled with.
fn marked_number(i: usize) -> u16 {
    if i % 2 == 0 { NO_RUN } else { u16::MAX }
}

/// A table or a board of this many places.
pub fn marked_places<K: CostKind>(
    heap: Global,
    kind: &K,
    count: usize,
) -> Result<Vec<Place<K::Cost>>, AllocError> {
    (0..count).map(|i| marked_place(kind, i)).collect(heap)
}

/// A list of this many places.
pub fn marked_numbers(heap: Global, count: usize) -> Result<Vec<u16>, AllocError> {
    (0..count).map(marked_number).collect(heap)
}

/// The cost of a place, if there is a walk.
pub fn cost_of<C: Copy>(place: Place<C>) -> Option<C> {
    place.map(|reached| reached.cost)
}

/// Whether two places are the same.
fn is_same_place<K: CostKind>(kind: &K, a: Place<K::Cost>, b: Place<K::Cost>) -> bool {
    let run_of = |place: Place<K::Cost>| place.map(|reached| reached.run);
    run_of(a) == run_of(b) && is_same(kind, cost_of(a), cost_of(b))
}

/// Whether the places from `first` on are as they were filled.
pub fn check_places<K: CostKind>(
    kind: &K,
    places: &[Place<K::Cost>],
    first: usize,
) -> Result<(), Fault> {
    let mut rest = places.iter().enumerate().skip(first);
    if rest.all(|(i, place)| is_same_place(kind, *place, marked_place(kind, i))) {
        Ok(())
    } else {
        Err(Fault::Touched)
    }
}

/// Whether the numbers from `first` on are as they were filled.
pub fn check_numbers(numbers: &[u16], first: usize) -> Result<(), Fault> {
    let mut rest = numbers.iter().enumerate().skip(first);
    if rest.all(|(i, number)| *number == marked_number(i)) {
        Ok(())
    } else {
        Err(Fault::Touched)
    }
}
