//! Calls on polynomials in x and y over GF(7), from tables.

ghost use Rattle.std.specs.Prelude.{◌≡◌, ◌≤◌, nat_lt, IfOk};
ghost use Rattle.rinv_algebra.specs.Normal.{IsNormal};
ghost use Rattle.rinv_algebra.specs.Residue.{residue_ops};

use crate::tables::{Term, is_list, polynomial};
use rinv_mono::Mono;
use rinv_poly::{KPoly, PolyRing};
use rinv_ring::{Gf, NoMemory, Ring, RingFault};
use std::alloc::Global;
use std::test::Fail;

#[derive(Clone, Copy)]
enum Call {
    Product,
    Sum,
    Difference,
}

// x + y, and x + 6.
const X_Y: &[Term] = &[(1, [0, 1, 0]), (1, [1, 0, 0])];

const X_6: &[Term] = &[(1, [1, 0, 0]), (6, [0, 0, 0])];

// The call, its two operands, and its result.
const RESULTS: &[(Call, &[Term], &[Term], &[Term])] = &[
    (
        Call::Product,
        X_Y,
        X_Y,
        &[(1, [2, 0, 0]), (2, [1, 1, 0]), (1, [0, 2, 0])],
    ),
    (Call::Sum, X_6, &[(6, [1, 0, 0]), (1, [0, 0, 0])], &[]),
    (
        Call::Difference,
        X_6,
        X_Y,
        &[(6, [0, 1, 0]), (6, [0, 0, 0])],
    ),
];

// x^4000*y^2000 + 1, and x*y + x^4001.
const HIGH: &[Term] = &[(1, [4000, 2000, 0]), (1, [0, 0, 0])];

const LOW: &[Term] = &[(1, [1, 1, 0]), (1, [4001, 0, 0])];

// The exponents of x in two terms, x^a*y^2 and c*x^b*y^2; whether they stand as a polynomial is stored.
const STORED: &[(u32, u32, u32, bool)] = &[
    (1, 0, 6, true),
    (0, 1, 6, false),
    (1, 1, 6, false),
    (1, 0, 7, false),
    (1, 0, 0, false),
];

// What the call answers.
fn answer(
    alloc: Global,
    ring: &PolyRing<Gf>,
    call: Call,
    first: &[Term],
    second: &[Term],
) -> Result<KPoly, RingFault>
    requires vars { ring.now.vars ≤ 3 }
{
    let first = polynomial(alloc, ring, first)?;
    let second = polynomial(alloc, ring, second)?;
    match call {
        Call::Product => ring.product(alloc, &first, &second),
        Call::Sum => ring.add(alloc, &first, &second),
        Call::Difference => ring.sub(alloc, &first, &second),
    }
}

// Whether the call answers these terms.
fn answers(
    alloc: Global,
    ring: &PolyRing<Gf>,
    call: Call,
    first: &[Term],
    second: &[Term],
    expected: &[Term],
) -> bool
    requires vars { ring.now.vars ≤ 3 }
{
    match answer(alloc, ring, call, first, second) {
        Ok(f) => is_list(ring, &f, expected),
        Err(_) => false,
    }
}

#[test]
fn calculates(rt: HostRuntime) -> Result<(), Fail> {
    let ring = PolyRing::new(Gf::new(7)?, 2);
    for (call, first, second, expected) in RESULTS {
        assert!(rt; answers(rt.alloc(), &ring, *call, first, second, expected));
    }
    Ok(())
}

#[test]
fn refuses_a_product_over_the_limit(rt: HostRuntime) -> Result<(), Fail> {
    let ring = PolyRing::new(Gf::new(7)?, 2);
    let fault = answer(rt.alloc(), &ring, Call::Product, HIGH, LOW).err();
    assert_eq!(rt;
        fault,
        Some(RingFault::Degree {
            left: 6000,
            right: 4001
        })
    );
    Ok(())
}

// Whether 3 times x + y, 5 and 0 are what they should be.
fn takes_numbers(alloc: Global, ring: &PolyRing<Gf>) -> Result<bool, RingFault>
    requires field { ring.now.coeffs ≡ 7 }
    requires vars { ring.now.vars ≡ 2 }
{
    let x_y = polynomial(alloc, ring, X_Y)?;
    let triple = ring.scale(alloc, &3, &x_y)?;
    let five = ring.constant(alloc, 5)?;
    let zero = ring.constant(alloc, 0)?;
    Ok(
        is_list(ring, &triple, &[(3, [1, 0, 0]), (3, [0, 1, 0])])
            && is_list(ring, &five, &[(5, [0, 0, 0])])
            && is_list(ring, &zero, &[]),
    )
}

#[test]
fn takes_elements_for_constants_and_factors(rt: HostRuntime) -> Result<(), Fail> {
    let ring = PolyRing::new(Gf::new(7)?, 2);
    assert!(rt; takes_numbers(rt.alloc(), &ring).unwrap_or(false));
    Ok(())
}

// 1 + x + .. + x^(count - 1).
fn powers_of_x(alloc: Global, ring: &PolyRing<Gf>, count: u32) -> Result<KPoly, RingFault>
    requires vars { ring.now.vars ≡ 2 }
    ensures { IfOk result (IsNormal (residue_ops ring.now.coeffs) (λ c. nat_lt c ring.now.coeffs) ring.now.vars) }
{
    let mut terms = Vec::new(alloc);
    for k in 0..count {
        terms.push((1, [k, 0, 0]))?;
    }
    polynomial(alloc, ring, &terms)
}

// Whether (x - 1)*s^2 is (x^200 - 1)*s for s = 1 + x + .. + x^199. The square has 40,000 products of two terms, in three pieces.
fn squares_by_pieces(alloc: Global, ring: &PolyRing<Gf>) -> Result<bool, RingFault>
    requires vars { ring.now.vars ≡ 2 }
{
    let s = powers_of_x(alloc, ring, 200)?;
    let square = ring.mul(alloc, &s, &s)?;
    let first = polynomial(alloc, ring, X_6)?;
    let last = polynomial(alloc, ring, &[(1, [200, 0, 0]), (6, [0, 0, 0])])?;
    let left = ring.mul(alloc, &first, &square)?;
    let right = ring.mul(alloc, &last, &s)?;
    ring.same(alloc, &left, &right)
}

#[test]
fn multiplies_many_terms(rt: HostRuntime) -> Result<(), Fail> {
    let ring = PolyRing::new(Gf::new(7)?, 2);
    assert!(rt; squares_by_pieces(rt.alloc(), &ring).unwrap_or(false));
    Ok(())
}

// Whether x^a*y^2 and c*x^b*y^2 stand as they are stored.
fn stand_as_stored(
    alloc: Global,
    ring: &PolyRing<Gf>,
    a: u32,
    b: u32,
    c: u32,
) -> Result<bool, NoMemory> {
    let mut terms = Vec::new(alloc);
    if let Some(mono) = Mono::from_exponents(alloc, &[a, 2])? {
        terms.push((mono, 1))?;
    }
    if let Some(mono) = Mono::from_exponents(alloc, &[b, 2])? {
        terms.push((mono, c))?;
    }
    let stored = ring.stored(terms)?;
    Ok(stored.is_some())
}

#[test]
fn reads_lists_as_they_stand(rt: HostRuntime) -> Result<(), Fail> {
    let ring = PolyRing::new(Gf::new(7)?, 2);
    for (a, b, c, stored) in STORED {
        let found = stand_as_stored(rt.alloc(), &ring, *a, *b, *c);
        assert!(rt; found.ok() == Some(*stored));
    }
    Ok(())
}

// Whether 5*x^3 in one variable is 5*y^3 behind another.
fn moves_behind(alloc: Global, one: &PolyRing<Gf>, two: &PolyRing<Gf>) -> Result<bool, RingFault>
    requires one { one.now.vars ≡ 1 }
    requires two { two.now.vars ≡ 2 }
    requires field { two.now.coeffs ≡ one.now.coeffs }
{
    let cube = polynomial(alloc, one, &[(5, [3, 0, 0])])?;
    let moved = one.behind(alloc, 1, &cube, two)?;
    Ok(is_list(two, &moved, &[(5, [0, 3, 0])]))
}

#[test]
fn moves_to_later_variables(rt: HostRuntime) -> Result<(), Fail> {
    let one = PolyRing::new(Gf::new(7)?, 1);
    let two = PolyRing::new(Gf::new(7)?, 2);
    assert!(rt; moves_behind(rt.alloc(), &one, &two).unwrap_or(false));
    Ok(())
}
