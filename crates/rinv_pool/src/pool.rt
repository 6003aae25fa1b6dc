//! The pool: for each run number in use the chain of its slots, and a chain of the free slots.

ghost use Rattle.std.specs.Prelude.{◌≡◌, ◌+◌, ◌-◌, ◌<◌, ◌≤◌, ◌^◌, ◌==◌, ℕ, List, [], ◌∷◌, ◌++◌, length, get_or, max, true, Some, None, IfOk, IfErr, OnOk};
ghost use Rattle.std.specs.Option.{MatchOption};
ghost use Rattle.rinv_pool.specs.Pools.{Changes, SameCounts, Takes, held, is_in_use, row_at, runs_in_use, terms_of, used};
ghost use Rattle.rinv_pool.specs.Runs.{empty_chain, with_item};

use crate::slots::{Chain, Slot, add_slots, append, next_of, replace};
use std::alloc::{AllocError as NoMemory, Global};
use std::marker::Model;

/// A run of terms of a pool. It is spent by `give_back`.
pub struct Run {
    pub(crate) number: u32,
}

impl Model for Run {
    ghost use Rattle.std.specs.Prelude.{ℕ};

    ghost Value = { ℕ };

    ghost view = { λ run. run.number };
}

/// Terms of many runs in one region of slots.
#[derive(Drop)]
pub struct TermPool<T> {
    slots: Vec<Slot<T>>,
    free: u32,
    spare: u32,
    live: u32,
    runs: Vec<Option<Chain>>,
}

impl<T> Model for TermPool<T> {
    ghost use Rattle.std.specs.Prelude.{length, map};
    ghost use Rattle.rinv_pool.specs.Pools.{Pool};

    ghost Value = { Pool T };

    ghost use Rattle.rinv_pool.specs.Slots.{next_at, term_at};
    ghost use Rattle.rinv_pool.specs.Chains.{Holds, row_of};

    ghost view = { λ p. record {
      rows = map (row_of (next_at p.slots.items) (term_at p.slots.items)) p.runs.items;
      live = p.live;
      spare = p.spare;
      size = length p.slots.items;
    } };

    ghost invariant = { λ p.
        Holds (next_at p.slots.items) (term_at p.slots.items) (length p.slots.items) p.free p.spare p.live p.runs.items
        (map (row_of (next_at p.slots.items) (term_at p.slots.items)) p.runs.items) };
}

impl<T: Drop> TermPool<T> {
    /// A pool of so many free slots, in which no run is in use.
    pub fn with_slots(alloc: Global, n: u32) -> Result<TermPool<T>, NoMemory>
        ensures rows { IfOk result (λ pool. pool.rows ≡ []) }
        ensures live { IfOk result (λ pool. pool.live ≡ 0) }
        ensures spare { IfOk result (λ pool. pool.spare ≡ n) }
        ensures size { IfOk result (λ pool. pool.size ≡ n) }
    {
        let mut pool = TermPool {
            slots: Vec::new(alloc),
            free: 0,
            spare: 0,
            live: 0,
            runs: Vec::new(alloc),
        };
        pool.reserve(n)?;
        Ok(pool)
    }

    /// Makes room for so many more terms.
    pub fn reserve(&mut self, n: u32) -> Result<(), NoMemory>
        requires { self.old.live + n < 2 ^ 32 }
        ensures rows { self.new.rows ≡ self.old.rows }
        ensures live { self.new.live ≡ self.old.live }
        ensures spare { OnOk result (self.new.spare ≡ max self.old.spare n) }
        ensures size { OnOk result (self.new.size ≡ self.old.size + (n - self.old.spare)) }
        ensures unchanged { IfErr result (λ _. self.new ≡ self.old) }
    {
        let more = n.saturating_sub(self.spare);
        self.slots.reserve(more as usize)?;
        add_slots(&mut self.slots, &mut self.free, more);
        self.spare += more;
        Ok(())
    }

    /// A new run with no terms. Its number is the least one that is not in use.
    pub fn new_run(&mut self) -> Result<Run, NoMemory>
        requires { runs_in_use self.old < 2 ^ 32 - 1 }
        ensures unused { IfOk result (λ run. row_at self.old run ≡ None) }
        ensures rows { IfOk result (λ run. Changes self.old self.new run (Some [])) }
        ensures counts { SameCounts self.old self.new }
        ensures unchanged { IfErr result (λ _. self.new ≡ self.old) }
    {
        let number = unused_number(&self.runs);
        write_run(&mut self.runs, number)?;
        Ok(Run { number })
    }

    /// Whether the run's number is in use in this pool.
    pub fn has(&self, run: &Run) -> bool
        ensures { result ≡ is_in_use self.now run.now }
    {
        let number = run.number as usize;
        if number >= self.runs.len() {
            return false;
        }
        self.runs[number].is_some()
    }

    /// Adds a term at the end of a run.
    pub fn push(&mut self, run: &mut Run, term: T)
        requires in_use { is_in_use self.old run.old ≡ true }
        requires room { 1 ≤ self.old.spare }
        ensures run { run.new ≡ run.old }
        ensures rows { Changes self.old self.new run.old (Some (terms_of self.old run.old ++ term ∷ [])) }
        ensures live { self.new.live ≡ self.old.live + 1 }
        ensures spare { self.new.spare + 1 ≡ self.old.spare }
        ensures size { self.new.size ≡ self.old.size }
    {
        let Some(chain) = self.runs[run.number as usize] else {
            unreachable!()
        };
        let place = self.free;
        let next = next_of(&self.slots, place);
        let first = chain.first_or(place);
        append(&mut self.slots, place, chain.last_or(place), term);
        self.runs[run.number as usize] = Some(Chain {
            first,
            last: place,
            count: chain.count + 1,
        });
        self.free = next;
        self.spare -= 1;
        self.live += 1;
    }

    /// Takes the first term of a run; None exactly where the run has no terms.
    pub fn pop_front(&mut self, run: &mut Run) -> Option<T>
        requires in_use { is_in_use self.old run.old ≡ true }
        ensures run { run.new ≡ run.old }
        ensures term { MatchOption result ((self.new ≡ self.old) × (terms_of self.old run.old ≡ [])) (λ term. Takes self.old self.new run.old term) }
    {
        let Some(chain) = self.runs[run.number as usize] else {
            unreachable!()
        };
        if chain.count == 0 {
            return None;
        }
        let place = chain.first;
        let next = next_of(&self.slots, place);
        let term = replace(&mut self.slots, place, None, self.free);
        self.runs[run.number as usize] = Some(Chain {
            first: next,
            last: chain.last,
            count: chain.count - 1,
        });
        self.free = place;
        self.spare += 1;
        self.live -= 1;
        term
    }

    /// Drops the terms of a run, and frees its slots and its number.
    pub fn give_back(&mut self, run: Run)
        requires in_use { is_in_use self.old run ≡ true }
        ensures rows { Changes self.old self.new run None }
        ensures live { self.new.live + length (terms_of self.old run) ≡ self.old.live }
        ensures spare { self.new.spare ≡ self.old.spare + length (terms_of self.old run) }
        ensures size { self.new.size ≡ self.old.size }
    {
        let mut run = run;
        'terms: while let Some(_) = self.pop_front(&mut run) {}
        self.forget(run);
    }

    // Frees the number of a run with no terms.
    fn forget(&mut self, run: Run)
        requires { row_at self.old run ≡ Some [] }
        ensures rows { Changes self.old self.new run None }
        ensures counts { SameCounts self.old self.new }
    {
        let Run { number } = run;
        self.runs[number as usize] = None;
    }

    /// How many terms can be added before more room is wanted.
    pub fn spare(&self) -> u32
        ensures { result ≡ self.now.spare }
    {
        self.spare
    }

    /// How many terms the runs have together.
    pub fn live(&self) -> u32
        ensures live { result ≡ self.now.live }
        ensures sum { self.now.live ≡ held self.now.rows }
    {
        self.live
    }

    /// How many terms the pool has room for.
    pub fn size(&self) -> u32
        ensures size { result ≡ self.now.size }
        ensures whole { self.now.live + self.now.spare ≡ self.now.size }
    {
        self.slots.len() as u32
    }
}

// The least run number that is not in use.
fn unused_number(runs: &[Option<Chain>]) -> u32
    requires { used runs.now < 2 ^ 32 - 1 }
    ensures unused { get_or runs.now result None ≡ None }
    ensures within { result ≤ length runs.now }
{
    let mut number = 0;
    'numbers: while (number as usize) < runs.len() {
        let run = runs[number as usize];
        if run.is_none() {
            return number;
        }
        number += 1;
    }
    number
}

// A run with no terms gets the number, which is in the list or next.
fn write_run(runs: &mut Vec<Option<Chain>>, number: u32) -> Result<(), NoMemory>
    requires { number ≤ length runs.old.items }
    ensures written { OnOk result (runs.new.items ≡ with_item runs.old.items number (Some empty_chain)) }
    ensures unchanged { IfErr result (λ _. runs.new.items ≡ runs.old.items) }
{
    let chain = Chain {
        first: 0,
        last: 0,
        count: 0,
    };
    if (number as usize) < runs.len() {
        runs[number as usize] = Some(chain);
        return Ok(());
    }
    runs.push(Some(chain))?;
    Ok(())
}
