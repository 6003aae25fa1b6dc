//! Writing the text of a system.

ghost use Rattle.std.specs.Prelude.{◌≡◌, ◌++◌, ◌==◌, ℕ, List, [], ◌∷◌, length, map, codes, decimal, nat_lt, All, IsTrue, IfOk, OnOk, if◌then◌else◌};
ghost use Rattle.rinv_defs.specs.SystemForm.{IsSystem};
ghost use Rattle.rinv_system.specs.Written.{list_text, numbers_text, line_text, first_lines, ideal_lines, product_line, inverse_line, action_line, map_lines, section_lines, budget_lines, text_of, system_text};
ghost use Rattle.rinv_system.specs.Writing.{AreOver, AppendsPolynomials, AppendsPolynomialsLine};

use rinv_poly::KPoly;
use rinv_text::{Names, System, write_poly};
use std::alloc::{AllocError as NoMemory, Global};

// The numbers of pairs and of steps of a text that does not say how many.
const USUAL_PAIRS: u32 = 10_000;

const USUAL_STEPS: u64 = 10_000_000;

// Appends a comma and a blank, unless nothing stands before them.
fn separate(first: bool, out: &mut Vec<u8>) -> Result<(), NoMemory>
    ensures { OnOk result (out.new.items ≡ out.old.items ++ (if first then [] else codes ", ")) }
{
    if first {
        return Ok(());
    }
    out.extend_from_slice(b", ")
}

// Appends a number in decimal digits.
fn write_number(alloc: Global, n: u64, out: &mut Vec<u8>) -> Result<(), NoMemory>
    ensures { OnOk result (out.new.items ≡ out.old.items ++ decimal n) }
{
    let digits = n.to_string(alloc)?;
    out.extend_from_slice(digits.as_bytes())
}

// Appends a list of names.
fn write_names(names: &Names, out: &mut Vec<u8>) -> Result<(), NoMemory>
    ensures { OnOk result (out.new.items ≡ out.old.items ++ list_text names.now) }
{
    'names: for k in 0..names.len() {
        separate(k == 0, out)?;
        out.extend_from_slice(names.name(k).as_bytes())?;
    }
    Ok(())
}

// Appends a list of numbers.
fn write_numbers(alloc: Global, numbers: &[u32], out: &mut Vec<u8>) -> Result<(), NoMemory>
    ensures { OnOk result (out.new.items ≡ out.old.items ++ numbers_text numbers.now) }
{
    'numbers: for k in 0..numbers.len() {
        separate(k == 0, out)?;
        write_number(alloc, numbers[k] as u64, out)?;
    }
    Ok(())
}

// Appends a list of polynomials.
fn write_polynomials(
    alloc: Global,
    polynomials: &[KPoly],
    names: &Names,
    out: &mut Vec<u8>,
) -> Result<(), NoMemory>
    requires { All (AreOver (length names.now)) polynomials.now }
    ensures { OnOk result (AppendsPolynomials names.now polynomials.now out.old.items out.new.items) }
{
    'polynomials: for k in 0..polynomials.len() {
        separate(k == 0, out)?;
        write_poly(alloc, &polynomials[k], names, out)?;
    }
    Ok(())
}

// Begins the line of a word.
fn begin(word: &[u8], out: &mut Vec<u8>) -> Result<(), NoMemory>
    ensures { OnOk result (out.new.items ≡ out.old.items ++ (word.now ++ codes " ")) }
{
    out.extend_from_slice(word)?;
    out.extend_from_slice(b" ")
}

// The line of a word with names.
fn names_line(word: &[u8], names: &Names, out: &mut Vec<u8>) -> Result<(), NoMemory>
    ensures { OnOk result (out.new.items ≡ out.old.items ++ (line_text word.now (list_text names.now) ++ codes "\n")) }
{
    begin(word, out)?;
    write_names(names, out)?;
    out.extend_from_slice(b"\n")
}

// The line of a word with a number.
fn number_line(alloc: Global, word: &[u8], n: u64, out: &mut Vec<u8>) -> Result<(), NoMemory>
    ensures { OnOk result (out.new.items ≡ out.old.items ++ (line_text word.now (decimal n) ++ codes "\n")) }
{
    begin(word, out)?;
    write_number(alloc, n, out)?;
    out.extend_from_slice(b"\n")
}

// The line of a word with numbers.
fn numbers_line(
    alloc: Global,
    word: &[u8],
    numbers: &[u32],
    out: &mut Vec<u8>,
) -> Result<(), NoMemory>
    ensures { OnOk result (out.new.items ≡ out.old.items ++ (line_text word.now (numbers_text numbers.now) ++ codes "\n")) }
{
    begin(word, out)?;
    write_numbers(alloc, numbers, out)?;
    out.extend_from_slice(b"\n")
}

// The line of a word with polynomials.
fn polynomials_line(
    alloc: Global,
    word: &[u8],
    polynomials: &[KPoly],
    names: &Names,
    out: &mut Vec<u8>,
) -> Result<(), NoMemory>
    requires { All (AreOver (length names.now)) polynomials.now }
    ensures { OnOk result (AppendsPolynomialsLine word.now names.now polynomials.now out.old.items out.new.items) }
{
    begin(word, out)?;
    write_polynomials(alloc, polynomials, names, out)?;
    out.extend_from_slice(b"\n")?;
    Ok(())
}

// The line of a budget, unless it is the usual one.
fn budget_line(
    alloc: Global,
    word: &[u8],
    usual: u64,
    n: u64,
    out: &mut Vec<u8>,
) -> Result<(), NoMemory>
    ensures { OnOk result (out.new.items ≡ out.old.items ++ text_of (budget_lines word.now usual n)) }
{
    if n == usual {
        return Ok(());
    }
    number_line(alloc, word, n, out)
}

// The lines that come first.
fn write_first(alloc: Global, system: &System, out: &mut Vec<u8>) -> Result<(), NoMemory>
    ensures { OnOk result (out.new.items ≡ out.old.items ++ text_of (first_lines system.now.system)) }
{
    number_line(alloc, b"field", system.field.modulus() as u64, out)?;
    names_line(b"group", &system.group, out)?;
    names_line(b"space", &system.space, out)?;
    Ok(())
}

// The line of the ideal, unless it is empty.
fn write_ideal(alloc: Global, system: &System, out: &mut Vec<u8>) -> Result<(), NoMemory>
    requires { IsSystem system.now.system }
    ensures { OnOk result (out.new.items ≡ out.old.items ++ text_of (ideal_lines system.now.system)) }
{
    if system.ideal.is_empty() {
        return Ok(());
    }
    polynomials_line(alloc, b"ideal", &system.ideal, &system.group, out)?;
    Ok(())
}

// The line of the product, which has the group's names twice.
fn write_product(alloc: Global, system: &System, out: &mut Vec<u8>) -> Result<(), NoMemory>
    requires { IsSystem system.now.system }
    ensures { OnOk result (out.new.items ≡ out.old.items ++ (product_line system.now.system ++ codes "\n")) }
{
    let factors = system.group.copies(alloc, 2)?;
    polynomials_line(alloc, b"product", &system.product, &factors, out)?;
    Ok(())
}

// The line of the inverse.
fn write_inverse(alloc: Global, system: &System, out: &mut Vec<u8>) -> Result<(), NoMemory>
    requires { IsSystem system.now.system }
    ensures { OnOk result (out.new.items ≡ out.old.items ++ (inverse_line system.now.system ++ codes "\n")) }
{
    polynomials_line(alloc, b"inverse", &system.inverse, &system.group, out)?;
    Ok(())
}

// The line of the action, which has the names of the group and of the space.
fn write_action(alloc: Global, system: &System, out: &mut Vec<u8>) -> Result<(), NoMemory>
    requires { IsSystem system.now.system }
    ensures { OnOk result (out.new.items ≡ out.old.items ++ (action_line system.now.system ++ codes "\n")) }
{
    let both = system.group.joined(alloc, &system.space)?;
    polynomials_line(alloc, b"action", &system.action, &both, out)?;
    Ok(())
}

// The lines of the group's unit, product and inverse, and of the action.
fn write_maps(alloc: Global, system: &System, out: &mut Vec<u8>) -> Result<(), NoMemory>
    requires { IsSystem system.now.system }
    ensures { OnOk result (out.new.items ≡ out.old.items ++ text_of (map_lines system.now.system)) }
{
    numbers_line(alloc, b"unit", &system.unit, out)?;
    write_product(alloc, system, out)?;
    write_inverse(alloc, system, out)?;
    write_action(alloc, system, out)?;
    Ok(())
}

// The line of the section, where there is one.
fn write_section(alloc: Global, system: &System, out: &mut Vec<u8>) -> Result<(), NoMemory>
    requires { IsSystem system.now.system }
    ensures { OnOk result (out.new.items ≡ out.old.items ++ text_of (section_lines system.now.system)) }
{
    if system.section.is_empty() {
        return Ok(());
    }
    polynomials_line(alloc, b"section", &system.section, &system.space, out)?;
    Ok(())
}

/// The text of a system.
pub fn write_system(alloc: Global, system: &System) -> Result<Vec<u8>, NoMemory>
    requires { IsSystem system.now.system }
    ensures { IfOk result (λ v. v.items ≡ system_text system.now) }
{
    let mut out = Vec::new(alloc);
    write_first(alloc, system, &mut out)?;
    write_ideal(alloc, system, &mut out)?;
    write_maps(alloc, system, &mut out)?;
    write_section(alloc, system, &mut out)?;
    budget_line(
        alloc,
        b"budget pairs",
        USUAL_PAIRS as u64,
        system.pairs as u64,
        &mut out,
    )?;
    budget_line(alloc, b"budget steps", USUAL_STEPS, system.steps, &mut out)?;
    Ok(out)
}
