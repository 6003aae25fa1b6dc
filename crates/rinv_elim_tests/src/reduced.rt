//! What elimination makes of systems: the reduced bases of their extended ideals, misses, and stops.

ghost use Rattle.std.specs.Prelude.{IfSome};
ghost use Rattle.rinv_defs.specs.SystemForm.{IsSystem};

use crate::systems::{
    EXCHANGES, MOTIONS, OF_EXCHANGES, OF_MOTIONS, OF_QUADRATICS, OF_ROTATIONS, OF_SCALINGS,
    OF_SHIFTS, OF_SIGNS, OF_TRANSLATIONS, ON_SECTION, QUADRATICS, ROTATIONS, Row, SCALINGS, SHIFTS,
    SIGNS, TRANSLATIONS,
};
use rinv_buch::{Stop, Why};
use rinv_div::Budget;
use rinv_elim::{ElimStop, action_basis, eliminate, localise, reduce};
use rinv_frac::FracRing;
use rinv_mono::Mono;
use rinv_poly::{KPoly, PolyRing};
use rinv_system::read_system;
use rinv_tails::{FracRelation, Monic};
use rinv_text::{System, read_poly};
use std::alloc::Global;
use std::cmp::Ordering;

// The system of a text.
fn system_of(alloc: Global, text: &[u8]) -> Option<System>
    ensures { IfSome result (λ told. IsSystem told.system) }
{
    if text.len() > 10_000 {
        return None;
    }
    match read_system(alloc, text) {
        Ok(system) => Some(system),
        Err(_) => None,
    }
}

// The reduced basis of its extended ideal.
fn basis_of(alloc: Global, system: &System) -> Option<Monic>
    requires { IsSystem system.now.system }
{
    let mut endless = Budget::without_end();
    let Ok(basis) = action_basis(alloc, system, &mut endless) else {
        return None;
    };
    let Ok(cut) = eliminate(alloc, system, &basis) else {
        return None;
    };
    let Ok(relations) = localise(alloc, system, &cut) else {
        return None;
    };
    match reduce(alloc, system, relations) {
        Ok(reduced) => Some(reduced),
        Err(_) => None,
    }
}

// Whether the monomial has these exponents.
fn has_exponents(mono: &Mono, wanted: &[u32]) -> bool {
    if mono.vars() as usize != wanted.len() {
        return false;
    }
    for k in 0..wanted.len() {
        if mono.exponent_or_zero(k as u32) != wanted[k] {
            return false;
        }
    }
    true
}

// Whether the polynomial in the space's variables is that of the text.
fn is_poly(alloc: Global, system: &System, f: &KPoly, text: &str) -> bool {
    if text.len() > 10_000 {
        return false;
    }
    let Ok(wanted) = read_poly(alloc, text, &system.space, &system.field) else {
        return false;
    };
    let (left, right) = (f.terms(), wanted.terms());
    if left.len() != right.len() {
        return false;
    }
    for k in 0..left.len() {
        let ((mono, c), (other, d)) = (&left[k], &right[k]);
        if mono.lex(other) != Ordering::Equal || c != d {
            return false;
        }
    }
    true
}

// Whether the relation is that of the row.
fn is_row(alloc: Global, system: &System, relation: &FracRelation, row: &Row) -> bool {
    let field = FracRing::new(PolyRing::new(system.field, system.space.len()));
    let (lead, tail) = row;
    if !has_exponents(&relation.lead, lead) || relation.tail.len() != tail.len() {
        return false;
    }
    for k in 0..tail.len() {
        let (mono, fraction) = &relation.tail[k];
        let (wanted, num, den) = &tail[k];
        if !has_exponents(mono, wanted)
            || !is_poly(alloc, system, field.num(fraction), num)
            || !is_poly(alloc, system, field.den(fraction), den)
        {
            return false;
        }
    }
    true
}

// Whether the reduced basis of the system is this.
fn has_basis(alloc: Global, text: &[u8], rows: &[Row]) -> bool {
    match system_of(alloc, text) {
        Some(system) => is_basis(alloc, &system, rows),
        None => false,
    }
}

// The system with the polynomial of a text in its section too.
fn with_equation(alloc: Global, system: System, text: &str) -> Option<System>
    requires { IsSystem system.system }
    ensures { IfSome result (λ told. IsSystem told.system) }
{
    let mut system = system;
    if text.len() > 10_000 || system.section.len() >= 64 {
        return None;
    }
    let Ok(f) = read_poly(alloc, text, &system.space, &system.field) else {
        return None;
    };
    if system.section.push(f).is_err() {
        return None;
    }
    Some(system)
}

// Whether its reduced basis is this on the section.
fn has_basis_on(alloc: Global, text: &[u8], section: &str, rows: &[Row]) -> bool {
    let Some(system) = system_of(alloc, text) else {
        return false;
    };
    match with_equation(alloc, system, section) {
        Some(system) => is_basis(alloc, &system, rows),
        None => false,
    }
}

// The system of a text, with a section of two equations.
fn system_on(alloc: Global, text: &[u8], section: (&str, &str)) -> Option<System>
    ensures { IfSome result (λ told. IsSystem told.system) }
{
    let (first, second) = section;
    let system = system_of(alloc, text)?;
    let system = with_equation(alloc, system, first)?;
    with_equation(alloc, system, second)
}

// Whether the section misses the orbits, by this element.
fn misses_by(alloc: Global, text: &[u8], section: (&str, &str), wanted: &str) -> bool {
    let Some(system) = system_on(alloc, text, section) else {
        return false;
    };
    let mut endless = Budget::without_end();
    let Ok(basis) = action_basis(alloc, &system, &mut endless) else {
        return false;
    };
    let Ok(cut) = eliminate(alloc, &system, &basis) else {
        return false;
    };
    match localise(alloc, &system, &cut) {
        Err(ElimStop::Whole { element }) => is_poly(alloc, &system, &element, wanted),
        _ => false,
    }
}

// Whether the reduced basis of the system is this.
fn is_basis(alloc: Global, system: &System, rows: &[Row]) -> bool
    requires { IsSystem system.now.system }
{
    let Some(basis) = basis_of(alloc, system) else {
        return false;
    };
    if basis.relations.len() != rows.len() {
        return false;
    }
    for k in 0..rows.len() {
        if !is_row(alloc, system, &basis.relations[k], &rows[k]) {
            return false;
        }
    }
    true
}

#[test]
fn makes_the_reduced_basis(rt: HostRuntime) {
    for (text, rows) in [
        (ROTATIONS, OF_ROTATIONS),
        (TRANSLATIONS, OF_TRANSLATIONS),
        (SCALINGS, OF_SCALINGS),
        (SIGNS, OF_SIGNS),
        (SHIFTS, OF_SHIFTS),
        (EXCHANGES, OF_EXCHANGES),
    ] {
        assert!(rt;
            has_basis(rt.alloc(), text, rows),
            "each system has its basis"
        );
    }
}

// What stops the run on the system with this budget: a pair, a step, or neither.
fn stopped_by(alloc: Global, text: &[u8], pairs: u32, steps: u64) -> u32 {
    let Some(system) = system_of(alloc, text) else {
        return 3;
    };
    let mut budget = Budget {
        pairs,
        steps,
        pairs_spent: 0,
        steps_spent: 0,
        endless: false,
    };
    match action_basis(alloc, &system, &mut budget) {
        Err(Stop::Incomplete(halt)) => match halt.why {
            Why::Pairs { .. } => 1,
            Why::Steps { .. } => 2,
            Why::Degree { .. } => 3,
        },
        Err(_) => 3,
        Ok(_) => 0,
    }
}

#[test]
fn cuts_orbits_by_a_section(rt: HostRuntime) {
    assert!(rt;
        has_basis_on(rt.alloc(), TRANSLATIONS, "x", ON_SECTION),
        "x = 0 meets each orbit once"
    );
}

#[test]
fn tells_a_section_that_misses_orbits(rt: HostRuntime) {
    assert!(rt;
        misses_by(rt.alloc(), TRANSLATIONS, ("y-1", "y^2-1"), "y-1"),
        "y = 1 misses most orbits"
    );
    assert!(rt;
        misses_by(rt.alloc(), TRANSLATIONS, ("y", "0"), "y"),
        "so does y = 0"
    );
    assert!(rt;
        misses_by(rt.alloc(), SCALINGS, ("x-1", "x-2"), "1"),
        "and an empty section misses them all"
    );
}

#[test]
fn makes_the_reduced_basis_of_larger_groups(rt: HostRuntime) {
    for (text, rows) in [(QUADRATICS, OF_QUADRATICS), (MOTIONS, OF_MOTIONS)] {
        assert!(rt;
            has_basis(rt.alloc(), text, rows),
            "one invariant gives the one relation"
        );
    }
}

#[test]
fn stops_where_the_budget_ends(rt: HostRuntime) {
    assert_eq!(rt;
        stopped_by(rt.alloc(), ROTATIONS, 0, 1000),
        1,
        "no pair may be taken"
    );
    assert_eq!(rt;
        stopped_by(rt.alloc(), ROTATIONS, 1000, 0),
        2,
        "no step may be made"
    );
    assert_eq!(rt;
        stopped_by(rt.alloc(), ROTATIONS, 1000, 1000),
        0,
        "and this is enough"
    );
}
