//! Slots, each with room for a term and the place of the slot behind it, and what is written into them.

ghost use Rattle.std.specs.Prelude.{◌≡◌, ◌≢◌, ◌+◌, ◌<◌, ◌≤◌, ◌^◌, ◌==◌, ℕ, List, [], ◌∷◌, ◌++◌, length, None, Some, if◌then◌else◌};
ghost use Rattle.std.specs.Vec.{vec_capacity, vec_len};
ghost use Rattle.rinv_pool.specs.Slots.{next_at, term_at};
ghost use Rattle.rinv_pool.specs.Growing.{IsGrown};

use std::mem;

/// A slot: a term, and the place of the next slot of its chain.
#[derive(Drop)]
pub(crate) struct Slot<T> {
    pub(crate) term: Option<T>,
    pub(crate) next: u32,
}

/// The slots of a run, each behind the one before.
#[derive(Clone, Copy)]
pub(crate) struct Chain {
    pub(crate) first: u32,
    pub(crate) last: u32,
    pub(crate) count: u32,
}

impl Chain {
    // The first place, where a further slot is put at the end.
    pub(crate) fn first_or(self, place: u32) -> u32
        ensures { result ≡ (if self.count == 0 then place else self.first) }
    {
        if self.count == 0 { place } else { self.first }
    }

    // The last place, or this one where there is none.
    pub(crate) fn last_or(self, place: u32) -> u32
        ensures { result ≡ (if self.count == 0 then place else self.last) }
    {
        if self.count == 0 { place } else { self.last }
    }
}

// The place behind a place.
pub(crate) fn next_of<T>(slots: &Vec<Slot<T>>, place: u32) -> u32
    requires { place < length slots.now.items }
    ensures { result ≡ next_at slots.now.items place }
{
    let slot = &slots[place as usize];
    slot.next
}

// Puts this into a slot, and answers its term before.
pub(crate) fn replace<T>(
    slots: &mut Vec<Slot<T>>,
    place: u32,
    term: Option<T>,
    next: u32,
) -> Option<T>
    requires { place < length slots.old.items }
    ensures length { length slots.new.items ≡ length slots.old.items }
    ensures term_here { term_at slots.new.items place ≡ term }
    ensures term_others { (at : ℕ) → at ≢ place → term_at slots.new.items at ≡ term_at slots.old.items at }
    ensures next_here { next_at slots.new.items place ≡ next }
    ensures next_others { (at : ℕ) → at ≢ place → next_at slots.new.items at ≡ next_at slots.old.items at }
    ensures before { result ≡ term_at slots.old.items place }
{
    let slot = &mut slots[place as usize];
    let before = mem::replace(slot, Slot { term, next });
    let Slot { term, next: _ } = before;
    term
}

// Writes the place behind a slot.
fn link<T>(slots: &mut Vec<Slot<T>>, place: u32, next: u32)
    requires { place < length slots.old.items }
    ensures length { length slots.new.items ≡ length slots.old.items }
    ensures terms { (at : ℕ) → term_at slots.new.items at ≡ term_at slots.old.items at }
    ensures next_here { next_at slots.new.items place ≡ next }
    ensures next_others { (at : ℕ) → at ≢ place → next_at slots.new.items at ≡ next_at slots.old.items at }
{
    let slot = &mut slots[place as usize];
    slot.next = next;
}

// Puts a term into a slot, behind another slot.
pub(crate) fn append<T: Drop>(slots: &mut Vec<Slot<T>>, place: u32, after: u32, term: T)
    requires place { place < length slots.old.items }
    requires after { after < length slots.old.items }
    ensures length { length slots.new.items ≡ length slots.old.items }
    ensures term_here { term_at slots.new.items place ≡ Some term }
    ensures term_others { (at : ℕ) → at ≢ place → term_at slots.new.items at ≡ term_at slots.old.items at }
    ensures linked { next_at slots.new.items after ≡ place }
    ensures next_others { (at : ℕ) → at ≢ place → at ≢ after → next_at slots.new.items at ≡ next_at slots.old.items at }
{
    let before = replace(slots, place, Some(term), place);
    drop(before);
    link(slots, after, place);
}

// Adds so many slots in front of the free ones.
pub(crate) fn add_slots<T>(slots: &mut Vec<Slot<T>>, free: &mut u32, more: u32)
    requires room { vec_len slots.old + more ≤ vec_capacity slots.old }
    requires few { length slots.old.items + more < 2 ^ 32 }
    ensures length { length slots.new.items ≡ length slots.old.items + more }
    ensures holds { IsGrown slots.old.items free.old slots.new.items free.new more }
{
    let mut added = 0;
    'slots: while added < more {
        let place = slots.len() as u32;
        slots.push_reserved(Slot {
            term: None,
            next: *free,
        });
        *free = place;
        added += 1;
    }
}
