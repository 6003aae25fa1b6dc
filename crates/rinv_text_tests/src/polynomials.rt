//! Polynomials over GF(7), read and printed.

ghost use Rattle.std.specs.Prelude.{◌≡◌, length, All, IfOk};

use rinv_poly::KPoly;
use rinv_ring::Gf;
use rinv_text::{Names, TextStop, read_poly, write_poly};
use std::alloc::Global;

// The polynomial over GF(7) that the text denotes.
pub(crate) fn polynomial(alloc: Global, names: &Names, text: &str) -> Result<KPoly, TextStop>
    ensures { IfOk result (λ f. All (λ t. length t.0 ≡ length names.now) f) }
{
    if text.len() > 1_000_000 {
        return Err(TextStop::NoMemory);
    }
    let Ok(field) = Gf::new(7) else {
        return Err(TextStop::NoMemory);
    };
    let f = read_poly(alloc, text, names, &field)?;
    Ok(f)
}

// What is read of the text, printed behind other bytes.
pub(crate) fn printed(
    alloc: Global,
    names: &Names,
    before: &[u8],
    text: &str,
) -> Result<Vec<u8>, TextStop> {
    let f = polynomial(alloc, names, text)?;
    let mut out = Vec::from_slice(alloc, before)?;
    write_poly(alloc, &f, names, &mut out)?;
    Ok(out)
}
