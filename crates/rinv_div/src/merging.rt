//! Changed terms are merged into the terms of a polynomial, in the order of a division, the greatest last: what is not below the least
//! change is moved once.

ghost use Rattle.std.specs.Prelude.{◌≡◌, ◌<◌, ◌≤◌, [], length, All, IsTrue, OnOk};
ghost use Rattle.std.specs.declared.cmp.Ordering.TheVariants.{Less, Equal};
ghost use Rattle.rinv_algebra.specs.Monomial.{total_degree, max_degree};
ghost use Rattle.rinv_poly.specs.Terms.{IsTerm, IsMoved};
ghost use Rattle.rinv_div.specs.Moves.{ComparesLast, Appends, PutsLast, ReplacesLast};
ghost use Rattle.rinv_div.specs.Polynomials.{Ascends, InOrder, TakesIn};

use rinv_mono::{Mono, MonoOrder};
use rinv_ring::{NoMemory, Ring};
use std::alloc::Global;
use std::cmp::Ordering;

/// Puts the changed terms in the place of those that are left at their monomials, and drops those whose coefficient is zero.
pub fn merge<R: Ring, O: MonoOrder>(
    coeffs: &R,
    alloc: Global,
    vars: u32,
    order: &O,
    changes: Vec<(Mono, R::Elem)>,
    left: &mut Vec<(Mono, R::Elem)>,
) -> Result<(), NoMemory>
    requires suits { O.fits order.now vars }
    requires changes { InOrder R.is_element O.cmp coeffs.now order.now vars changes }
    requires left { Ascends R.ops R.is_element O.cmp coeffs.now order.now vars left.old }
    ensures arranged { OnOk result (Ascends R.ops R.is_element O.cmp coeffs.now order.now vars left.new) }
    ensures value { OnOk result (TakesIn R.ops coeffs.now changes left.old left.new) }
{
    let mut changes = changes;
    let mut done = Vec::new(alloc);
    'terms: while changes.len() > 0 {
        match compare_last(vars, order, left, &changes) {
            Ordering::Greater => move_last(left, &mut done)?,
            Ordering::Less => put_last(coeffs, vars, &mut changes, &mut done)?,
            Ordering::Equal => replace_last(coeffs, vars, left, &mut changes, &mut done)?,
        }
    }
    done.reverse();
    left.append(&mut done)?;
    Ok(())
}

// How the last monomials compare. A list that has none is below the other.
fn compare_last<E, O: MonoOrder>(
    vars: u32,
    order: &O,
    a: &Vec<(Mono, E)>,
    b: &Vec<(Mono, E)>,
) -> Ordering
    requires suits { O.fits order.now vars }
    requires left { All (λ t. length t.0 ≡ vars) a.now.items }
    requires right { All (λ t. length t.0 ≡ vars) b.now.items }
    requires some { 0 < length b.now.items }
    ensures both { ComparesLast O.cmp order.now a.now.items b.now.items result }
    ensures ended { a.now.items ≡ [] → result ≡ Less }
{
    match (a.last(), b.last()) {
        (Some(s), Some(t)) => order.compare(&s.0, &t.0),
        _ => Ordering::Less,
    }
}

// Moves the last term behind others.
fn move_last<E: Drop>(from: &mut Vec<(Mono, E)>, to: &mut Vec<(Mono, E)>) -> Result<(), NoMemory>
    requires { 0 < length from.old.items }
    ensures { OnOk result (IsMoved from.old.items from.new.items to.old.items to.new.items) }
{
    let Some(term) = from.pop() else {
        unreachable!()
    };
    to.push(term)?;
    Ok(())
}

// Moves the last term behind others, unless its coefficient is zero.
fn put_last<R: Ring>(
    coeffs: &R,
    vars: u32,
    from: &mut Vec<(Mono, R::Elem)>,
    to: &mut Vec<(Mono, R::Elem)>,
) -> Result<(), NoMemory>
    requires some { 0 < length from.old.items }
    requires terms { All (IsTerm (R.is_element coeffs.now) vars) from.old.items }
    ensures { OnOk result (PutsLast R.ops coeffs.now from.old from.new to.old to.new) }
{
    let Some((mono, c)) = from.pop() else {
        unreachable!()
    };
    push_term(coeffs, mono, c, to)?;
    Ok(())
}

// Appends the term, unless its coefficient is zero.
fn push_term<R: Ring>(
    coeffs: &R,
    mono: Mono,
    c: R::Elem,
    to: &mut Vec<(Mono, R::Elem)>,
) -> Result<(), NoMemory>
    requires { IsTrue (R.is_element coeffs.now c) }
    ensures value { OnOk result (Appends R.ops coeffs.now (mono, c) to.old to.new) }
    ensures low { total_degree mono ≤ max_degree }
{
    let _degree = mono.degree();
    if !coeffs.is_zero(&c) {
        to.push((mono, c))?;
    }
    Ok(())
}

// Moves the last term of `changes` behind others, in the place of the last that is left.
fn replace_last<R: Ring>(
    coeffs: &R,
    vars: u32,
    left: &mut Vec<(Mono, R::Elem)>,
    changes: &mut Vec<(Mono, R::Elem)>,
    to: &mut Vec<(Mono, R::Elem)>,
) -> Result<(), NoMemory>
    requires some_left { 0 < length left.old.items }
    requires some { 0 < length changes.old.items }
    requires terms { All (IsTerm (R.is_element coeffs.now) vars) changes.old.items }
    ensures { OnOk result (ReplacesLast R.ops coeffs.now left.old left.new changes.old changes.new to.old to.new) }
{
    let Some(_old) = left.pop() else {
        unreachable!()
    };
    put_last(coeffs, vars, changes, to)?;
    Ok(())
}
