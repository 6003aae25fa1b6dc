//! Worked systems, and the reduced bases of their extended ideals: leading monomials in Z and tails with coefficients in x.

// Rotations of the plane: Z moves on the circle through x.
pub(crate) const ROTATIONS: &[u8] =
    b"field 101\ngroup a, b\nspace x, y\nideal a^2+b^2-1\nunit 1, 0\nproduct a*a'-b*b', a*b'+b*a'\ninverse a, -b\naction a*x-b*y, b*x+a*y\n";

// Translations along x, whose group has no ideal.
pub(crate) const TRANSLATIONS: &[u8] =
    b"field 101\ngroup a\nspace x, y\nunit 0\nproduct a+a'\ninverse -a\naction x+a, y\n";

// Scalings of the plane.
pub(crate) const SCALINGS: &[u8] =
    b"field 101\ngroup a, b\nspace x, y\nideal a*b-1\nunit 1, 1\nproduct a*a', b*b'\ninverse b, a\naction a*x, a*y\n";

// Signs on the plane.
pub(crate) const SIGNS: &[u8] =
    b"field 7\ngroup a\nspace x, y\nideal a^2-1\nunit 1\nproduct a*a'\ninverse a\naction a*x, a*y\n";

// Translations of the line by the numbers modulo 5.
pub(crate) const SHIFTS: &[u8] =
    b"field 5\ngroup a\nspace x\nideal a^5-a\nunit 0\nproduct a+a'\ninverse -a\naction x+a\n";

// Exchange of two coordinates; 4 is the half of 1.
pub(crate) const EXCHANGES: &[u8] =
    b"field 7\ngroup a\nspace x, y\nideal a^2-1\nunit 1\nproduct a*a'\ninverse a\naction 4*(1+a)*x+4*(1-a)*y, 4*(1-a)*x+4*(1+a)*y\n";

// The matrices of determinant 1, on binary quadratics.
pub(crate) const QUADRATICS: &[u8] =
    b"field 32003\ngroup a, b, c, d\nspace u, v, w\nideal a*d-b*c-1\nunit 1, 0, 0, 1\nproduct a*a'+b*c', a*b'+b*d', c*a'+d*c', c*b'+d*d'\ninverse d, -b, -c, a\naction a^2*u+a*b*v+b^2*w, 2*a*c*u+(a*d+b*c)*v+2*b*d*w, c^2*u+c*d*v+d^2*w\n";

// Rigid motions of two points of the plane.
pub(crate) const MOTIONS: &[u8] =
    b"field 101\ngroup a, b, c, d\nspace u, v, s, t\nideal a^2+b^2-1\nunit 1, 0, 0, 0\nproduct a*a'-b*b', a*b'+b*a', a*c'-b*d'+c, b*c'+a*d'+d\ninverse a, -b, -a*c-b*d, b*c-a*d\naction a*u-b*v+c, b*u+a*v+d, a*s-b*t+c, b*s+a*t+d\n";

// A lead, and terms with their numerators and denominators.
pub(crate) type Row<'a> = (&'a [u32], &'a [(&'a [u32], &'a str, &'a str)]);

pub(crate) const OF_ROTATIONS: &[Row] = &[(
    &[2, 0],
    &[(&[0, 2], "-1", "1"), (&[0, 0], "x^2+y^2", "1")],
)];

pub(crate) const OF_TRANSLATIONS: &[Row] = &[(&[0, 1], &[(&[0, 0], "y", "1")])];

pub(crate) const OF_SCALINGS: &[Row] = &[(&[1, 0], &[(&[0, 1], "x", "y")])];

pub(crate) const OF_SIGNS: &[Row] = &[
    (&[1, 0], &[(&[0, 1], "x", "y")]),
    (&[0, 2], &[(&[0, 0], "y^2", "1")]),
];

pub(crate) const OF_SHIFTS: &[Row] = &[(&[5], &[(&[1], "1", "1"), (&[0], "x^5-x", "1")])];

pub(crate) const OF_EXCHANGES: &[Row] = &[
    (&[1, 0], &[(&[0, 1], "-1", "1"), (&[0, 0], "x+y", "1")]),
    (&[0, 2], &[(&[0, 1], "x+y", "1"), (&[0, 0], "-x*y", "1")]),
];

pub(crate) const OF_QUADRATICS: &[Row] = &[(
    &[0, 2, 0],
    &[(&[1, 0, 1], "4", "1"), (&[0, 0, 0], "v^2-4*u*w", "1")],
)];

pub(crate) const OF_MOTIONS: &[Row] = &[(
    &[2, 0, 0, 0],
    &[
        (&[0, 2, 0, 0], "-1", "1"),
        (&[1, 0, 1, 0], "2", "1"),
        (&[0, 0, 2, 0], "-1", "1"),
        (&[0, 1, 0, 1], "2", "1"),
        (&[0, 0, 0, 2], "-1", "1"),
        (&[0, 0, 0, 0], "(u-s)^2+(v-t)^2", "1"),
    ],
)];

// x = 0 and y stays.
pub(crate) const ON_SECTION: &[Row] = &[(&[0, 1], &[(&[0, 0], "y", "1")]), (&[1, 0], &[])];
