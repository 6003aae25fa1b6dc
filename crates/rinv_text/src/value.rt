//! The fraction that the steps of an expression give.

ghost use Rattle.std.specs.Prelude.{◌≡◌, ◌<◌, List, ◌∷◌, length, get_or, reverse, All, IfOk, Some};
ghost use Rattle.rinv_frac.specs.Fractions.{IsStored};
ghost use Rattle.rinv_text.specs.Reading.{Definition, undefined};
ghost use Rattle.rinv_text.specs.Values.{IsStored as IsKept};
ghost use Rattle.rinv_text.specs.Evaluation.{step, outcome, on_one, on_two};
ghost use Rattle.rinv_text.specs.Meanings.{Meaning, meanings, named_at, defined_meaning, within, negative_meaning, power_meaning, binary, StandsFor, Piled, MayTake, Takes};

use crate::defs::Defs;
use crate::partial::Partial;
use crate::parts::Parts;
use crate::step::Step;
use rinv_frac::FracRing;
use rinv_poly::{KPoly, PolyRing};
use rinv_ring::{Gf, Ring};
use std::alloc::{AllocError as NoMemory, Global};

// The value on top.
fn take_top(stack: &mut Vec<Parts>) -> Parts
    requires { (x : Parts) × (xs : List Parts) × (reverse stack.old.items ≡ x ∷ xs) }
    ensures { result ∷ reverse stack.new.items ≡ reverse stack.old.items }
{
    match stack.pop() {
        Some(value) => value,
        None => unreachable!(),
    }
}

// The opposite of the value on top.
fn negative(stack: &mut Vec<Parts>, ring: &PolyRing<Gf>) -> Parts
    requires { MayTake ring.now.coeffs ring.now.vars (on_one (λ x. Some (negative_meaning ring.now.coeffs x))) stack.old.items }
    ensures { Takes ring.now.coeffs ring.now.vars (on_one (λ x. Some (negative_meaning ring.now.coeffs x))) stack.old.items stack.new.items result }
{
    let value = take_top(stack);
    value.negative(ring)
}

// The power of the value on top.
fn power(
    alloc: Global,
    exponent: u32,
    stack: &mut Vec<Parts>,
    ring: &PolyRing<Gf>,
) -> Result<Parts, NoMemory>
    requires { MayTake ring.now.coeffs ring.now.vars (on_one (λ x. within (power_meaning ring.now.coeffs x exponent))) stack.old.items }
    ensures { IfOk result (Takes ring.now.coeffs ring.now.vars (on_one (λ x. within (power_meaning ring.now.coeffs x exponent))) stack.old.items stack.new.items) }
{
    let base = take_top(stack);
    let power = base.power(alloc, exponent, ring)?;
    Ok(power)
}

// What a step makes of two values.
fn combined(
    alloc: Global,
    how: Step,
    left: Parts,
    right: Parts,
    ring: &PolyRing<Gf>,
) -> Result<Parts, NoMemory>
    requires { (a b z : Meaning) × StandsFor ring.now.coeffs ring.now.vars left a × StandsFor ring.now.coeffs ring.now.vars right b × (binary ring.now.coeffs how a b ≡ Some z) }
    ensures { (a b z : Meaning) → StandsFor ring.now.coeffs ring.now.vars left a → StandsFor ring.now.coeffs ring.now.vars right b → binary ring.now.coeffs how a b ≡ Some z → IfOk result (λ x. StandsFor ring.now.coeffs ring.now.vars x z) }
{
    match how {
        Step::Sum => left.sum(alloc, right, ring),
        Step::Difference => {
            let opposite = right.negative(ring);
            left.sum(alloc, opposite, ring)
        }
        Step::Product => left.product(alloc, right, ring),
        Step::Quotient => left.quotient(alloc, right, ring),
        _ => unreachable!(),
    }
}

// What a step makes of the two values on top.
fn joined(
    alloc: Global,
    how: Step,
    stack: &mut Vec<Parts>,
    ring: &PolyRing<Gf>,
) -> Result<Parts, NoMemory>
    requires { MayTake ring.now.coeffs ring.now.vars (on_two (binary ring.now.coeffs how)) stack.old.items }
    ensures { IfOk result (Takes ring.now.coeffs ring.now.vars (on_two (binary ring.now.coeffs how)) stack.old.items stack.new.items) }
{
    let right = take_top(stack);
    let left = take_top(stack);
    let joined = combined(alloc, how, left, right, ring)?;
    Ok(joined)
}

// The fraction of the abbreviation at a place.
fn defined(alloc: Global, place: u32, defs: &Defs, field: &FracRing) -> Result<Parts, NoMemory>
    requires within { place < length defs.now }
    requires values { All (λ d. IsStored field.now.base.coeffs field.now.base.vars d.value) defs.now }
    ensures { IfOk result (λ x. StandsFor field.now.base.coeffs field.now.base.vars x (defined_meaning (get_or defs.now place undefined))) }
{
    let ring = field.base();
    let abbreviation = &defs.list()[place as usize];
    let num = ring.copy(alloc, field.num(&abbreviation.value))?;
    let den = ring.copy(alloc, field.den(&abbreviation.value))?;
    let num = Partial::whole(alloc, num, ring)?;
    Ok(Parts {
        num,
        den: Some(den),
        by_zero: false,
    })
}

// The name at a place: a variable or an abbreviation.
fn named(alloc: Global, k: u32, defs: &Defs, field: &FracRing) -> Result<Parts, NoMemory>
    requires known { (g : Meaning) × (named_at field.now.base.coeffs field.now.base.vars defs.now k ≡ Some g) }
    requires values { All (λ d. IsStored field.now.base.coeffs field.now.base.vars d.value) defs.now }
    ensures { (g : Meaning) → named_at field.now.base.coeffs field.now.base.vars defs.now k ≡ Some g → IfOk result (λ x. StandsFor field.now.base.coeffs field.now.base.vars x g) }
{
    let count = field.base().vars();
    if k < count {
        return Parts::variable(alloc, k, field.base());
    }
    defined(alloc, k - count, defs, field)
}

// What the step puts on the stack, after it has taken from it what it needs.
fn value_after(
    alloc: Global,
    next: Step,
    stack: &mut Vec<Parts>,
    defs: &Defs,
    field: &FracRing,
) -> Result<Parts, NoMemory>
    requires may { MayTake field.now.base.coeffs field.now.base.vars (step (meanings field.now.base.coeffs (named_at field.now.base.coeffs field.now.base.vars defs.now)) next) stack.old.items }
    requires values { All (λ d. IsStored field.now.base.coeffs field.now.base.vars d.value) defs.now }
    ensures { IfOk result (Takes field.now.base.coeffs field.now.base.vars (step (meanings field.now.base.coeffs (named_at field.now.base.coeffs field.now.base.vars defs.now)) next) stack.old.items stack.new.items) }
{
    match next {
        Step::Number(c) => Parts::number(alloc, c, field.base()),
        Step::Variable(k) => {
            let value = named(alloc, k, defs, field)?;
            Ok(value)
        }
        Step::Negative => Ok(negative(stack, field.base())),
        Step::Power(exponent) => power(alloc, exponent, stack, field.base()),
        _ => joined(alloc, next, stack, field.base()),
    }
}

/// The fraction that the steps give, where they give one, and whether something in them is divided by zero.
pub fn value_of(
    alloc: Global,
    steps: &[Step],
    defs: &Defs,
    field: &FracRing,
) -> Result<Parts, NoMemory>
    requires may { (g : Meaning) × (outcome (meanings field.now.base.coeffs (named_at field.now.base.coeffs field.now.base.vars defs.now)) steps.now ≡ Some g) }
    requires values { All (λ d. IsStored field.now.base.coeffs field.now.base.vars d.value) defs.now }
    ensures { (g : Meaning) → outcome (meanings field.now.base.coeffs (named_at field.now.base.coeffs field.now.base.vars defs.now)) steps.now ≡ Some g → IfOk result (λ x. StandsFor field.now.base.coeffs field.now.base.vars x g) }
{
    let mut stack = Vec::new(alloc);
    for step in steps {
        let value = value_after(alloc, *step, &mut stack, defs, field)?;
        stack.push(value)?;
    }
    let whole = take_top(&mut stack);
    Ok(whole)
}

/// The numerator of the fraction that the steps give, where they give one.
pub fn numerator_of(
    alloc: Global,
    steps: &[Step],
    defs: &Defs,
    field: &FracRing,
) -> Result<KPoly, NoMemory>
    requires may { (g : Meaning) × (outcome (meanings field.now.base.coeffs (named_at field.now.base.coeffs field.now.base.vars defs.now)) steps.now ≡ Some g) }
    requires values { All (λ d. IsStored field.now.base.coeffs field.now.base.vars d.value) defs.now }
    ensures { (g : Meaning) → outcome (meanings field.now.base.coeffs (named_at field.now.base.coeffs field.now.base.vars defs.now)) steps.now ≡ Some g → IfOk result (IsKept field.now.base.coeffs field.now.base.vars g.numbers.num_degree g.value.0) }
{
    let parts = value_of(alloc, steps, defs, field)?;
    let numerator = parts.num.settled(alloc, field.base())?;
    Ok(numerator)
}
