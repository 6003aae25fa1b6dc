//! Ranks in graded reverse lexicographic order, from the partial sums.

ghost use Rattle.std.specs.Prelude.{◌≡◌, ◌≤◌, ◌-◌, ◌++◌, length, take, drop, OnOk};
ghost use Rattle.rinv_algebra.specs.BlockEnds.{sizes_from};
ghost use Rattle.rinv_algebra.specs.Ranks.{graded_rank, turned};
ghost use Rattle.rinv_mono.specs.AreSums.{AreSums};

use crate::monomial::MAX_DEGREE;
use crate::sums::{degree_between, exponent_of};
use std::alloc::AllocError as NoMemory;

// Appends the rank of the variables from one place up to another: their degree, and what each exponent leaves of the limit, from the last
// to the first.
pub(crate) fn push_graded(
    out: &mut Vec<u32>,
    sums: &[u16],
    start: usize,
    end: usize,
) -> Result<(), NoMemory>
    requires order { start ≤ end }
    requires inside { end ≤ length sums.now }
    requires sums { AreSums sums.now }
    ensures { OnOk result (out.new.items ≡ out.old.items ++ graded_rank (take (end - start) (drop start (sizes_from 0 sums.now)))) }
{
    out.push(degree_between(sums, start, end))?;
    push_turned(out, sums, start, end)?;
    Ok(())
}

// Appends what each exponent leaves of the limit, from the last to the first.
fn push_turned(out: &mut Vec<u32>, sums: &[u16], start: usize, end: usize) -> Result<(), NoMemory>
    requires order { start ≤ end }
    requires inside { end ≤ length sums.now }
    requires sums { AreSums sums.now }
    ensures { OnOk result (out.new.items ≡ out.old.items ++ turned (take (end - start) (drop start (sizes_from 0 sums.now)))) }
{
    let mut k = end;
    'places: while k > start {
        k -= 1;
        out.push(MAX_DEGREE - u32::from(exponent_of(sums, k)))?;
    }
    Ok(())
}
