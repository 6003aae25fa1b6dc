//! How great an expression is before anything is multiplied out.

ghost use Rattle.std.specs.Prelude.{◌≡◌, ◌+◌, ◌^◌, ◌≤◌, ◌||◌, min, nat_lt, IfOk, IfSome, All, reverse};
ghost use Rattle.rinv_text.specs.Evaluation.{onto, step, outcome, top};
ghost use Rattle.rinv_text.specs.Formal.{formal_sum, formal_product, turned, formal_power, max_formal_degree, max_formal_terms};
ghost use Rattle.rinv_text.specs.Reading.{formal_at};
ghost use Rattle.rinv_text.specs.Sizes.{capped, judged, sizes, IsSize, IsCapped};

use crate::defs::Defs;
use crate::formal::{Formal, MAX_DEGREE, MAX_TERMS, NUMBER, VARIABLE};
use crate::step::Step;
use std::alloc::{AllocError as NoMemory, Global};

/// The formal numbers of an expression, where 65 and 1,000,001 stand for all that are greater; whether a degree or an exponent in it is
/// too great; and whether a part of it has too many terms.
#[derive(Clone, Copy)]
pub struct Size {
    pub numbers: Formal,
    pub is_high: bool,
    pub is_long: bool,
}

// The size of an expression with these numbers, of which a part is too high, or too long.
fn judged(numbers: Formal, is_high: bool, is_long: bool) -> Size
    ensures value { result ≡ judged numbers is_high is_long }
    ensures size { IsSize result }
{
    let numbers = numbers.capped();
    Size {
        numbers,
        is_high: is_high || numbers.is_above(),
        is_long: is_long || numbers.has_more(),
    }
}

// A number of terms to the power, as it is counted.
fn terms_power(terms: u64, exponent: u32) -> u64
    requires { terms ≤ max_formal_terms + 1 }
    ensures { result ≡ min (terms ^ exponent) (max_formal_terms + 1) }
{
    let mut power = 1;
    for k in 0..exponent {
        power = (power * terms).min(MAX_TERMS + 1);
    }
    power
}

// The numbers of a power, as they are counted.
fn numbers_power(base: Formal, exponent: u32) -> Formal
    requires { IsCapped base }
    ensures { capped result ≡ capped (formal_power base exponent) }
{
    Formal {
        num_degree: exponent as u64 * base.num_degree,
        den_degree: exponent as u64 * base.den_degree,
        num_terms: terms_power(base.num_terms, exponent),
        den_terms: terms_power(base.den_terms, exponent),
    }
}

impl Size {
    // Of the opposite.
    fn negative(self) -> Size
        ensures value { result ≡ judged self.numbers self.is_high self.is_long }
        ensures size { IsSize result }
    {
        judged(self.numbers, self.is_high, self.is_long)
    }

    // Of a sum or a difference.
    fn sum(self, other: Size) -> Size
        requires left { IsSize self }
        requires right { IsSize other }
        ensures value { result ≡ judged (formal_sum self.numbers other.numbers) (self.is_high || other.is_high) (self.is_long || other.is_long) }
        ensures size { IsSize result }
    {
        let numbers = self.numbers.sum(other.numbers);
        judged(
            numbers,
            self.is_high || other.is_high,
            self.is_long || other.is_long,
        )
    }

    // Of a product.
    fn product(self, other: Size) -> Size
        requires left { IsSize self }
        requires right { IsSize other }
        ensures value { result ≡ judged (formal_product self.numbers other.numbers) (self.is_high || other.is_high) (self.is_long || other.is_long) }
        ensures size { IsSize result }
    {
        let numbers = self.numbers.product(other.numbers);
        judged(
            numbers,
            self.is_high || other.is_high,
            self.is_long || other.is_long,
        )
    }

    // Of one divided by it, apart from what is too great in it.
    fn turned(self) -> Size
        ensures value { result ≡ record { numbers = turned self.numbers; is_high = self.is_high; is_long = self.is_long } }
    {
        Size {
            numbers: self.numbers.turned(),
            is_high: self.is_high,
            is_long: self.is_long,
        }
    }

    // Of a power.
    fn power(self, exponent: u32) -> Size
        requires { IsSize self }
        ensures value { result ≡ judged (formal_power self.numbers exponent) (self.is_high || nat_lt max_formal_degree exponent) self.is_long }
        ensures size { IsSize result }
    {
        let numbers = numbers_power(self.numbers, exponent);
        judged(
            numbers,
            self.is_high || exponent as u64 > MAX_DEGREE,
            self.is_long,
        )
    }
}

// The formal numbers of the name at a place, where there are `count` variables.
fn numbers_at(count: u32, defs: &Defs, k: u32) -> Formal
    ensures { result ≡ formal_at count defs.now k }
{
    if k < count {
        return VARIABLE;
    }
    match defs.list().get((k - count) as usize) {
        Some(abbreviation) => abbreviation.formal,
        None => VARIABLE,
    }
}

// What the step puts on the stack, after it has taken from it what it needs.
fn size_after(count: u32, defs: &Defs, next: Step, stack: &mut Vec<Size>) -> Option<Size>
    requires { All IsSize stack.old.items }
    ensures value { onto (reverse stack.new.items) result ≡ step (sizes (formal_at count defs.now)) next (reverse stack.old.items) }
    ensures left { All IsSize stack.new.items }
    ensures size { IfSome result IsSize }
{
    match next {
        Step::Number(_) => Some(judged(NUMBER, false, false)),
        Step::Variable(k) => Some(judged(numbers_at(count, defs, k), false, false)),
        Step::Negative => {
            let size = stack.pop()?;
            Some(size.negative())
        }
        Step::Sum | Step::Difference => {
            let right = stack.pop()?;
            let left = stack.pop()?;
            Some(left.sum(right))
        }
        Step::Product => {
            let right = stack.pop()?;
            let left = stack.pop()?;
            Some(left.product(right))
        }
        Step::Quotient => {
            let right = stack.pop()?;
            let left = stack.pop()?;
            Some(left.product(right.turned()))
        }
        Step::Power(exponent) => {
            let base = stack.pop()?;
            Some(base.power(exponent))
        }
    }
}

// The size on top.
fn take_top(stack: &mut Vec<Size>) -> Option<Size>
    ensures { result ≡ top (reverse stack.old.items) }
{
    stack.pop()
}

/// The size of the expression with these steps, where the names are those of `count` variables and of abbreviations.
pub fn size_of(
    alloc: Global,
    steps: &[Step],
    count: u32,
    defs: &Defs,
) -> Result<Option<Size>, NoMemory>
    ensures { IfOk result (λ o. o ≡ outcome (sizes (formal_at count defs.now)) steps.now) }
{
    let mut stack = Vec::new(alloc);
    for step in steps {
        let Some(size) = size_after(count, defs, *step, &mut stack) else {
            return Ok(None);
        };
        stack.push(size)?;
    }
    Ok(take_top(&mut stack))
}
