//! A divisor of many terms: a step by it puts in twelve terms at once, or takes twelve out.

use crate::tables::Term;

// x^12 - y^11 - .. - 1.
pub(crate) const TALL: &[Term] = &[
    (1, 12, 0),
    (6, 0, 11),
    (6, 0, 10),
    (6, 0, 9),
    (6, 0, 8),
    (6, 0, 7),
    (6, 0, 6),
    (6, 0, 5),
    (6, 0, 4),
    (6, 0, 3),
    (6, 0, 2),
    (6, 0, 1),
    (6, 0, 0),
];

// x*y^11 + .. + x, the rest of x^13.
pub(crate) const ROW: &[Term] = &[
    (1, 1, 11),
    (1, 1, 10),
    (1, 1, 9),
    (1, 1, 8),
    (1, 1, 7),
    (1, 1, 6),
    (1, 1, 5),
    (1, 1, 4),
    (1, 1, 3),
    (1, 1, 2),
    (1, 1, 1),
    (1, 1, 0),
];

// x^13 less this, of which nothing is left.
pub(crate) const FULL: &[Term] = &[
    (1, 13, 0),
    (6, 1, 11),
    (6, 1, 10),
    (6, 1, 9),
    (6, 1, 8),
    (6, 1, 7),
    (6, 1, 6),
    (6, 1, 5),
    (6, 1, 4),
    (6, 1, 3),
    (6, 1, 2),
    (6, 1, 1),
    (6, 1, 0),
];
