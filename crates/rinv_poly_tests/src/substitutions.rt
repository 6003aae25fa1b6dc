//! Substitution, renaming and combinations, from tables in the variables x, y and a.

ghost use Rattle.std.specs.Prelude.{◌≡◌, ◌≤◌};

use crate::tables::{Term, is_list, pair, polynomial};
use rinv_poly::{KPoly, PolyRing};
use rinv_ring::{Gf, RingFault};
use rinv_sub::{combination, rename, substitute, substitute_over_field, widened};
use std::alloc::Global;
use std::test::Fail;

const X: &[Term] = &[(1, [1, 0, 0])];

const Y: &[Term] = &[(1, [0, 1, 0])];

// x + a, and x + y + 1.
const X_A: &[Term] = &[(1, [1, 0, 0]), (1, [0, 0, 1])];

const X_Y_1: &[Term] = &[(1, [1, 0, 0]), (1, [0, 1, 0]), (1, [0, 0, 0])];

// A polynomial in x and y, what is put for x and for y, and what comes of it over GF(7): (x + a)^2 + y; a^2, the higher term being gone; a
// cube; values that add up to less; and to nothing.
const MOVED: &[(&[Term], &[Term], &[Term], &[Term])] = &[
    (
        &[(1, [2, 0, 0]), (1, [0, 1, 0])],
        X_A,
        Y,
        &[
            (1, [2, 0, 0]),
            (2, [1, 0, 1]),
            (1, [0, 1, 0]),
            (1, [0, 0, 2]),
        ],
    ),
    (
        &[(1, [1, 5001, 0]), (1, [0, 1, 0])],
        &[],
        &[(1, [0, 0, 2])],
        &[(1, [0, 0, 2])],
    ),
    (
        &[(1, [3, 0, 0])],
        X_Y_1,
        Y,
        &[
            (1, [3, 0, 0]),
            (3, [2, 1, 0]),
            (3, [2, 0, 0]),
            (3, [1, 2, 0]),
            (6, [1, 1, 0]),
            (3, [1, 0, 0]),
            (1, [0, 3, 0]),
            (3, [0, 2, 0]),
            (3, [0, 1, 0]),
            (1, [0, 0, 0]),
        ],
    ),
    (
        &[(1, [1, 1, 0]), (1, [1, 0, 0]), (1, [0, 1, 0])],
        &[(1, [0, 0, 1]), (1, [0, 0, 0])],
        &[(1, [0, 0, 1]), (6, [0, 0, 0])],
        &[(1, [0, 0, 2]), (2, [0, 0, 1]), (6, [0, 0, 0])],
    ),
    (&[(1, [1, 0, 0]), (6, [0, 1, 0])], X_A, X_A, &[]),
];

// A polynomial in x, what is put for x, and the degrees that are refused before anything is multiplied.
const REFUSED: &[(&[Term], &[Term], u32, u32)] = &[
    (&[(1, [21, 0, 0])], &[(1, [0, 0, 500])], 10000, 500),
    (
        &[(1, [9999, 0, 0])],
        &[(1, [1, 0, 0]), (1, [0, 0, 1]), (1, [0, 0, 2])],
        10000,
        2,
    ),
];

// The polynomial in x and y with the images put for them, by either call.
fn value_at(
    alloc: Global,
    from: &PolyRing<Gf>,
    f: &[Term],
    to: &PolyRing<Gf>,
    first: &[Term],
    second: &[Term],
    before: bool,
) -> Result<KPoly, RingFault>
    requires field { from.now.coeffs ≡ to.now.coeffs }
    requires two { from.now.vars ≡ 2 }
    requires three { to.now.vars ≡ 3 }
{
    let f = polynomial(alloc, from, f)?;
    let images = pair(alloc, to, first, second)?;
    if before {
        substitute_over_field(from, alloc, &f, to, &images)
    } else {
        substitute(from, alloc, &f, to, &images)
    }
}

// Whether both calls give these terms.
fn moves_so(
    alloc: Global,
    from: &PolyRing<Gf>,
    f: &[Term],
    to: &PolyRing<Gf>,
    first: &[Term],
    second: &[Term],
    expected: &[Term],
) -> Result<bool, RingFault>
    requires field { from.now.coeffs ≡ to.now.coeffs }
    requires two { from.now.vars ≡ 2 }
    requires three { to.now.vars ≡ 3 }
{
    let value = value_at(alloc, from, f, to, first, second, false)?;
    let same = value_at(alloc, from, f, to, first, second, true)?;
    Ok(is_list(to, &value, expected) && is_list(to, &same, expected))
}

#[test]
fn puts_polynomials_for_variables(rt: HostRuntime) -> Result<(), Fail> {
    let two = PolyRing::new(Gf::new(7)?, 2);
    let three = PolyRing::new(Gf::new(7)?, 3);
    for (f, first, second, expected) in MOVED {
        let moves = moves_so(rt.alloc(), &two, f, &three, first, second, expected);
        assert!(rt; moves.unwrap_or(false));
    }
    Ok(())
}

#[test]
fn refuses_before_it_multiplies(rt: HostRuntime) -> Result<(), Fail> {
    let two = PolyRing::new(Gf::new(7)?, 2);
    let three = PolyRing::new(Gf::new(7)?, 3);
    for (f, image, left, right) in REFUSED {
        let fault = value_at(rt.alloc(), &two, f, &three, image, Y, true).err();
        assert_eq!(rt;
            fault,
            Some(RingFault::Degree {
                left: *left,
                right: *right
            })
        );
    }
    Ok(())
}

// Whether the call that multiplies first refuses the same power.
#[test]
fn refuses_a_power(rt: HostRuntime) -> Result<(), Fail> {
    let two = PolyRing::new(Gf::new(7)?, 2);
    let three = PolyRing::new(Gf::new(7)?, 3);
    let fault = value_at(
        rt.alloc(),
        &two,
        &[(1, [21, 0, 0])],
        &three,
        &[(1, [0, 0, 500])],
        Y,
        false,
    );
    assert_eq!(rt;
        fault.err(),
        Some(RingFault::Degree {
            left: 10000,
            right: 500
        })
    );
    Ok(())
}

// Whether x*(x + y) - y*(x + y) is x^2 - y^2 in one variable more.
fn combines_and_widens(
    alloc: Global,
    two: &PolyRing<Gf>,
    three: &PolyRing<Gf>,
) -> Result<bool, RingFault>
    requires field { two.now.coeffs ≡ three.now.coeffs }
    requires two { two.now.vars ≡ 2 }
    requires three { three.now.vars ≡ 3 }
{
    let x_y: &[Term] = &[(1, [1, 0, 0]), (1, [0, 1, 0])];
    let cofactors = pair(alloc, two, X, &[(6, [0, 1, 0])])?;
    let generators = pair(alloc, two, x_y, x_y)?;
    let sum = combination(two, alloc, &cofactors, &generators)?;
    let wide = widened(two, alloc, &sum, three)?;
    Ok(is_list(three, &wide, &[(1, [2, 0, 0]), (6, [0, 2, 0])]))
}

#[test]
fn adds_up_and_widens(rt: HostRuntime) -> Result<(), Fail> {
    let two = PolyRing::new(Gf::new(7)?, 2);
    let three = PolyRing::new(Gf::new(7)?, 3);
    assert!(rt; combines_and_widens(rt.alloc(), &two, &three).unwrap_or(false));
    Ok(())
}

// Whether x is y at the second of two places.
fn renames_one(alloc: Global, one: &PolyRing<Gf>, two: &PolyRing<Gf>) -> Result<bool, RingFault>
    requires field { one.now.coeffs ≡ two.now.coeffs }
    requires one { one.now.vars ≡ 1 }
    requires two { two.now.vars ≡ 2 }
{
    let x = polynomial(alloc, one, X)?;
    let y = rename(one, alloc, &x, two, &[1])?;
    Ok(is_list(two, &y, Y))
}

// Whether x^2*y + 3*y^2 is 3*x^2 + x*a^2 at the third and the first place.
fn renames_two(alloc: Global, two: &PolyRing<Gf>, three: &PolyRing<Gf>) -> Result<bool, RingFault>
    requires field { two.now.coeffs ≡ three.now.coeffs }
    requires two { two.now.vars ≡ 2 }
    requires three { three.now.vars ≡ 3 }
{
    let f = polynomial(alloc, two, &[(1, [2, 1, 0]), (3, [0, 2, 0])])?;
    let moved = rename(two, alloc, &f, three, &[2, 0])?;
    Ok(is_list(three, &moved, &[(3, [2, 0, 0]), (1, [1, 0, 2])]))
}

#[test]
fn renames(rt: HostRuntime) -> Result<(), Fail> {
    let one = PolyRing::new(Gf::new(7)?, 1);
    let two = PolyRing::new(Gf::new(7)?, 2);
    let three = PolyRing::new(Gf::new(7)?, 3);
    assert!(rt; renames_one(rt.alloc(), &one, &two).unwrap_or(false));
    assert!(rt; renames_two(rt.alloc(), &two, &three).unwrap_or(false));
    Ok(())
}
