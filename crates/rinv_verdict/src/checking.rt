//! The answer to the bytes of a certificate: a text and how it ends.

ghost use Rattle.std.specs.Prelude.{◌≡◌, IfOk, None, codes};
ghost use Rattle.rinv_defs.specs.Format.{format_failure};
ghost use Rattle.rinv_defs.specs.Text.{yes_text, kind_text, no_text, refused_text};
ghost use Rattle.rinv_cert.specs.Faults.{part_word};
ghost use Rattle.rinv_cert.specs.Seen.{kind_of, plain};
ghost use Rattle.rinv_verdict.specs.Check.{IsCheckAnswer};

use crate::fraction::write_lines;
use rinv_cert::{CertFault, CertStop, Certificate, Kind, from_json};
use rinv_check::{Verdict, check};
use rinv_form::{FormatStop, names_of, sizes_in, stored};
use rinv_lines::Ending;
use std::alloc::{AllocError as NoMemory, Global};

/// What is printed for the bytes of a certificate, and how that ends.
pub fn answer(alloc: Global, bytes: &[u8]) -> Result<(Vec<u8>, Ending), NoMemory>
    ensures { IfOk result (λ a. IsCheckAnswer bytes.now a.0.items a.1) }
{
    let certificate = match from_json(alloc, bytes) {
        Ok(certificate) => certificate,
        Err(CertStop::Fault(fault)) => {
            let text = fault_line(alloc, fault)?;
            return Ok((text, Ending::Refused));
        }
        Err(CertStop::NoMemory) => return Err(NoMemory),
    };
    match check(alloc, &certificate)? {
        Verdict::Yes => {
            let text = yes_lines(alloc, &certificate)?;
            Ok((text, Ending::Done))
        }
        Verdict::No { condition, index } => {
            let text = failure_line(alloc, condition, index)?;
            Ok((text, Ending::Denied))
        }
    }
}

// The line of bytes that are no certificate.
fn fault_line(alloc: Global, fault: CertFault) -> Result<Vec<u8>, NoMemory>
    ensures { IfOk result (λ v. v.items ≡ refused_text (part_word fault.part) fault.index) }
{
    let CertFault { part, index } = fault;
    let line = format!(in alloc; "refused {part} {index}\n")?;
    Ok(line.into_bytes())
}

// The line of a condition that fails.
fn failure_line(alloc: Global, condition: u32, index: u32) -> Result<Vec<u8>, NoMemory>
    ensures { IfOk result (λ v. v.items ≡ no_text (condition, index)) }
{
    let line = format!(in alloc; "no C{condition} {index}\n")?;
    Ok(line.into_bytes())
}

// What an accepted certificate of a kind shows.
fn kind_line(kind: Kind) -> &'static str
    ensures { result.now ≡ kind_text (kind_of kind) }
{
    match kind {
        Kind::Invariance => "invariant\n",
        Kind::Sound => "sound\n",
        Kind::Full => "complete\n",
    }
}

// The lines of an accepted certificate.
fn yes_lines(alloc: Global, certificate: &Certificate) -> Result<Vec<u8>, NoMemory>
    requires { format_failure (plain certificate.now) ≡ None }
    ensures { IfOk result (λ v. v.items ≡ yes_text (plain certificate.now)) }
{
    let parts = match stored(alloc, certificate) {
        Ok(parts) => parts,
        Err(FormatStop::NoMemory) => return Err(NoMemory),
        Err(FormatStop::Part(_)) => unreachable!(),
    };
    let field = sizes_in(&parts).field;
    let names = names_of(alloc, certificate.system.space.as_slice())?;
    let mut out = Vec::new(alloc);
    out.extend_from_slice(b"yes\n")?;
    write_lines(alloc, field, &names, parts.fractions.as_slice(), &mut out)?;
    out.extend_from_slice(kind_line(certificate.kind).as_bytes())?;
    Ok(out)
}
