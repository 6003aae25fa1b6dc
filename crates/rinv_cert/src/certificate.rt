//! A certificate, as it is written: plain lists, of which no length or range is known.
//!
//! `P` is what stands for a polynomial: the list of its terms.

use crate::items::{Items, Name};
use std::marker::Model;

/// What a certificate shows: that its fractions are invariant; that the laws hold too; that the fractions generate too.
#[derive(Clone, Copy, Debug, PartialEq, Eq)]
pub enum Kind {
    Invariance,
    Sound,
    Full,
}

/// A coefficient, and the exponents of its monomial.
#[derive(Drop)]
pub struct Term {
    pub coefficient: u32,
    pub exponents: Items<u32>,
}

impl Model for Term {
    ghost use Rattle.std.specs.Prelude.{ℕ};
    ghost use Rattle.rinv_algebra.specs.Polynomial.{Term as FormalTerm};

    ghost Value = { FormalTerm ℕ };

    ghost view = { λ t. (t.exponents, t.coefficient) };
}

/// A polynomial, as the list of its terms.
pub type Polynomial = Items<Term>;

/// An element of a basis, and its cofactors.
#[derive(Drop)]
pub struct BasisItem<P> {
    pub h: P,
    pub cofactors: Items<P>,
}

impl<P> Model for BasisItem<P> {
    ghost use Rattle.std.specs.Prelude.{List};

    ghost Value = { P × List P };

    ghost view = { λ b. (b.h, b.cofactors) };
}

/// Why the pair of elements i and j, counted from 1, reduces to zero.
#[derive(Drop)]
pub enum PairItem<P> {
    Coprime { i: u32, j: u32 },
    Chain { i: u32, j: u32, k: u32 },
    Quotients { i: u32, j: u32, q: Items<P> },
}

/// What a coefficient of a relation is: a constant, or the fraction with a number from 1.
#[derive(Drop)]
pub enum Tied {
    Constant { v: u32 },
    Generator { k: u32 },
}

/// A term of a relation's tail.
#[derive(Drop)]
pub struct TailItem<P> {
    pub alpha: Items<u32>,
    pub c: P,
    pub tied: Tied,
}

impl<P> Model for TailItem<P> {
    ghost use Rattle.std.specs.Prelude.{ℕ, List};
    ghost use Rattle.rinv_cert.specs.declared.certificate.Tied.{Tied};

    ghost Value = { List ℕ × P × Tied };

    ghost view = { λ t. (t.alpha, t.c, t.tied) };
}

/// A relation, and the cofactors of its value at the moved point.
#[derive(Drop)]
pub struct RelationItem<P> {
    pub a: Items<u32>,
    pub d: P,
    pub tail: Items<TailItem<P>>,
    pub cofactors: Items<P>,
}

impl<P> Model for RelationItem<P> {
    ghost use Rattle.std.specs.Prelude.{ℕ, List};
    ghost use Rattle.rinv_cert.specs.declared.certificate.Tied.{Tied};

    ghost Value = { List ℕ × P × List (List ℕ × P × Tied) × List P };

    ghost view = { λ r. (r.a, r.d, r.tail, r.cofactors) };
}

/// A group that acts on affine space, without a section.
#[derive(Drop)]
pub struct System<P> {
    pub field: u32,
    pub group: Items<Name>,
    pub space: Items<Name>,
    pub ideal: Items<P>,
    pub unit: Items<u32>,
    pub product: Items<P>,
    pub inverse: Items<P>,
    pub action: Items<P>,
}

/// A certificate. The fields of keys that its kind does not have are empty.
#[derive(Drop)]
pub struct CertificateOf<P> {
    pub kind: Kind,
    pub system: System<P>,
    pub fractions: Items<(P, P)>,
    pub invariance: Items<Items<P>>,
    pub laws: Items<Items<Items<P>>>,
    pub basis: Items<BasisItem<P>>,
    pub inputs: Items<Items<P>>,
    pub pairs: Items<PairItem<P>>,
    pub relations: Items<RelationItem<P>>,
}

/// What stands for a polynomial.
pub type Plain = Polynomial;

/// A certificate whose polynomials stand where they are used.
pub type Certificate = CertificateOf<Plain>;
