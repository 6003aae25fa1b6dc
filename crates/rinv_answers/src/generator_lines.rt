//! The lines that show generators.

ghost use Rattle.std.specs.Prelude.{◌≡◌, ◌++◌, length, All, IfOk, OnOk};
ghost use Rattle.rinv_defs.specs.System.{space_count};
ghost use Rattle.rinv_defs.specs.SystemForm.{IsSystem};
ghost use Rattle.rinv_frac.specs.Fractions.{IsStored, IsPart};
ghost use Rattle.rinv_answers.specs.GeneratorLines.{complete_line, gen_text, generator_lines, missed_text};
ghost use Rattle.rinv_lines.specs.Pieces.{fraction_line};

use rinv_frac::{Frac, FracRing};
use rinv_poly::{KPoly, PolyRing};
use rinv_text::{System, write_fraction, write_poly};
use std::alloc::{AllocError as NoMemory, Global};

/// The generators, with numbers from 1, and the last line.
pub fn generator_text(
    alloc: Global,
    system: &System,
    fractions: &[Frac],
) -> Result<Vec<u8>, NoMemory>
    requires system { IsSystem system.now.system }
    requires fractions { All (IsStored system.now.system.p (space_count system.now.system)) fractions.now }
    ensures { IfOk result (λ v. v.items ≡ gen_text system.now.system fractions.now) }
{
    let mut out = Vec::new(alloc);
    write_generators(alloc, system, fractions, &mut out)?;
    out.extend_from_slice(complete_line(system))?;
    Ok(out)
}

/// Appends the lines of the generators, with numbers from 1.
pub fn write_generators(
    alloc: Global,
    system: &System,
    fractions: &[Frac],
    out: &mut Vec<u8>,
) -> Result<(), NoMemory>
    requires system { IsSystem system.now.system }
    requires fractions { All (IsStored system.now.system.p (space_count system.now.system)) fractions.now }
    ensures { OnOk result (out.new.items ≡ out.old.items ++ generator_lines system.now.system fractions.now) }
{
    let field = FracRing::new(PolyRing::new(system.field, system.space.len()));
    'lines: for k in 0..fractions.len() {
        write_line(alloc, system, &field, k + 1, &fractions[k], out)?;
    }
    Ok(())
}

// Appends the line of the fraction with a number.
fn write_line(
    alloc: Global,
    system: &System,
    field: &FracRing,
    number: usize,
    fraction: &Frac,
    out: &mut Vec<u8>,
) -> Result<(), NoMemory>
    requires system { IsSystem system.now.system }
    requires fraction { IsStored system.now.system.p (space_count system.now.system) fraction.now }
    ensures { OnOk result (out.new.items ≡ out.old.items ++ fraction_line system.now.system.p system.now.system.space number fraction.now) }
{
    let head = format!(in alloc; "y{number} = ")?;
    out.extend_from_slice(head.as_bytes())?;
    let (num, den) = (field.num(fraction), field.den(fraction));
    write_fraction(alloc, num, den, &system.space, out)?;
    out.extend_from_slice(b"\n")?;
    Ok(())
}

/// The last line.
pub fn complete_line(system: &System) -> &'static [u8]
    ensures { result.now ≡ complete_line system.now.system }
{
    if system.section.is_empty() {
        b"complete\n"
    } else {
        b"complete on section\n"
    }
}

/// The section misses the orbits, as the polynomial shows.
pub fn missed_line(alloc: Global, system: &System, element: &KPoly) -> Result<Vec<u8>, NoMemory>
    requires system { IsSystem system.now.system }
    requires element { IsPart system.now.system.p (space_count system.now.system) element.now }
    ensures { IfOk result (λ v. v.items ≡ missed_text system.now.system element.now) }
{
    let mut line = Vec::from_slice(alloc, b"denied section misses element ")?;
    write_poly(alloc, element, &system.space, &mut line)?;
    line.extend_from_slice(b"\n")?;
    Ok(line)
}
