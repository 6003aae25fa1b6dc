//! The conditions in their order, and the verdict.

ghost use Rattle.std.specs.Prelude.{◌≡◌, IfOk, None};
ghost use Rattle.rinv_defs.specs.Format.{format_failure};
ghost use Rattle.rinv_defs.specs.Conditions.{invariance_failure};
ghost use Rattle.rinv_defs.specs.Accepted.{first_failure};
ghost use Rattle.rinv_cert.specs.Seen.{plain};
ghost use Rattle.rinv_identities.specs.Graphs.{IsGraph};
ghost use Rattle.rinv_basis_check.specs.Bases.{IsBasisOf};
ghost use Rattle.rinv_check.specs.Verdicts.{failure_of, or_after};
ghost use Rattle.rinv_check.specs.Failures.{AreInvariant, AreSound, HaveLaws, failure_from_basis, failure_from_relations, failure_of_full, failure_of_sound};

use crate::basis::{basis_failure, inputs_failure};
use crate::invariance::invariance_failure;
use crate::laws::law_failure;
use rinv_basis_check::{Basis, basis_of, leads_failure, pairs_failure, relations_failure};
use rinv_cert::{Certificate, CertificateOf, Kind};
use rinv_form::{FormatStop, stored};
use rinv_identities::{Graph, graph_of};
use rinv_poly::KPoly;
use rinv_ring::NoMemory;
use std::alloc::Global;

/// Accepted, or the first condition that fails, with its place.
#[derive(Clone, Copy, Debug, PartialEq, Eq)]
pub enum Verdict {
    Yes,
    No { condition: u32, index: u32 },
}

// The last condition.
fn of_fractions(alloc: Global, stored: &CertificateOf<KPoly>) -> Result<Verdict, NoMemory>
    requires { format_failure (plain stored.now) ≡ None }
    ensures { IfOk result (λ v. failure_of v ≡ or_after 8 (invariance_failure (plain stored.now)) None) }
{
    match invariance_failure(alloc, stored)? {
        Some(index) => Ok(Verdict::No {
            condition: 8,
            index,
        }),
        None => Ok(Verdict::Yes),
    }
}

// The sixth condition and those after it.
fn from_relations(
    alloc: Global,
    stored: &CertificateOf<KPoly>,
    graph: &Graph,
    basis: &Basis,
) -> Result<Verdict, NoMemory>
    requires kind { stored.now.kind ≡ Kind.Full }
    requires form { format_failure (plain stored.now) ≡ None }
    requires graph { IsGraph (plain stored.now).system graph.now }
    requires basis { IsBasisOf (plain stored.now) basis.now }
    ensures { IfOk result (λ v. failure_of v ≡ failure_from_relations (plain stored.now)) }
{
    if let Some(index) = relations_failure(alloc, stored, graph)? {
        return Ok(Verdict::No {
            condition: 6,
            index,
        });
    }
    if let Some(index) = leads_failure(stored, basis)? {
        return Ok(Verdict::No {
            condition: 7,
            index,
        });
    }
    let verdict = of_fractions(alloc, stored)?;
    Ok(verdict)
}

// The third condition and those after it.
fn from_basis(alloc: Global, stored: &CertificateOf<KPoly>) -> Result<Verdict, NoMemory>
    requires kind { stored.now.kind ≡ Kind.Full }
    requires form { format_failure (plain stored.now) ≡ None }
    ensures { IfOk result (λ v. failure_of v ≡ failure_from_basis (plain stored.now)) }
{
    let graph = graph_of(alloc, stored)?;
    if let Some(index) = basis_failure(alloc, stored, &graph)? {
        return Ok(Verdict::No {
            condition: 3,
            index,
        });
    }
    let basis = basis_of(alloc, stored)?;
    if let Some(index) = inputs_failure(alloc, stored, &basis.elements)? {
        return Ok(Verdict::No {
            condition: 4,
            index,
        });
    }
    if let Some(index) = pairs_failure(alloc, stored, &basis)? {
        return Ok(Verdict::No {
            condition: 5,
            index,
        });
    }
    let verdict = from_relations(alloc, stored, &graph, &basis)?;
    Ok(verdict)
}

// The laws and the last condition.
fn of_sound(alloc: Global, stored: &CertificateOf<KPoly>) -> Result<Verdict, NoMemory>
    requires kind { stored.now.kind ≡ Kind.Sound }
    requires form { format_failure (plain stored.now) ≡ None }
    ensures { IfOk result (λ v. failure_of v ≡ failure_of_sound (plain stored.now)) }
{
    if let Some(index) = law_failure(alloc, stored)? {
        return Ok(Verdict::No {
            condition: 2,
            index,
        });
    }
    let verdict = of_fractions(alloc, stored)?;
    Ok(verdict)
}

// The laws and the conditions after them.
fn of_full(alloc: Global, stored: &CertificateOf<KPoly>) -> Result<Verdict, NoMemory>
    requires kind { stored.now.kind ≡ Kind.Full }
    requires form { format_failure (plain stored.now) ≡ None }
    ensures { IfOk result (λ v. failure_of v ≡ failure_of_full (plain stored.now)) }
{
    if let Some(index) = law_failure(alloc, stored)? {
        return Ok(Verdict::No {
            condition: 2,
            index,
        });
    }
    let verdict = from_basis(alloc, stored)?;
    Ok(verdict)
}

// The conditions of the kind after the first.
fn of_kind(alloc: Global, stored: &CertificateOf<KPoly>) -> Result<Verdict, NoMemory>
    requires { format_failure (plain stored.now) ≡ None }
    ensures { IfOk result (λ v. failure_of v ≡ first_failure (plain stored.now)) }
{
    match stored.kind {
        Kind::Invariance => {
            let verdict = of_fractions(alloc, stored)?;
            Ok(verdict)
        }
        Kind::Sound => {
            let verdict = of_sound(alloc, stored)?;
            Ok(verdict)
        }
        Kind::Full => {
            let verdict = of_full(alloc, stored)?;
            Ok(verdict)
        }
    }
}

/// Tests the conditions of the certificate's kind in their order.
pub fn check(alloc: Global, certificate: &Certificate) -> Result<Verdict, NoMemory>
    // Yes exactly where it is accepted, and otherwise the first condition that fails.
    ensures exact { IfOk result (λ v. failure_of v ≡ first_failure (plain certificate.now)) }

    // The fractions of an accepted certificate are invariant.
    ensures invariant { IfOk result (λ v. failure_of v ≡ None → AreInvariant (plain certificate.now)) }

    // The laws hold where the kind lists them.
    ensures laws { IfOk result (λ v. failure_of v ≡ None → HaveLaws (plain certificate.now)) }

    // One of kind `full` is sound: each invariant fraction, of any degree, is a rational expression in its fractions.
    ensures sound { IfOk result (λ v. failure_of v ≡ None → AreSound (plain certificate.now)) }
{
    let stored = match stored(alloc, certificate) {
        Ok(stored) => stored,
        Err(FormatStop::Part(index)) => {
            return Ok(Verdict::No {
                condition: 1,
                index,
            });
        }
        Err(FormatStop::NoMemory) => return Err(NoMemory),
    };
    let verdict = of_kind(alloc, &stored)?;
    Ok(verdict)
}
