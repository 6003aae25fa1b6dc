//! What is printed of a certificate.

ghost use Rattle.std.specs.Prelude.{◌≡◌, IfOk};
ghost use Rattle.rinv_json.specs.Denoted.{DenotesCertificate};
ghost use Rattle.rinv_json.specs.Ranges.{IsWritable};
ghost use Rattle.rinv_cert.specs.Seen.{plain};
ghost use Rattle.rinv_generators.specs.Generated.{IsGenerators};
ghost use Rattle.rinv_certificates.specs.Commands.Certify.{IsMade};
ghost use Rattle.rinv_certificates.specs.Texts.{certificate_text};

use rinv_answers::{Cause, Phase, incomplete_line};
use rinv_cert::{Certificate, to_json};
use rinv_certify::{CertifyStop, certify};
use rinv_generators::kinds::Generators;
use rinv_lines::Ending;
use std::alloc::{AllocError as NoMemory, Global};

// The greatest number of bytes of a certificate's text: that of an input.
const MAX_TEXT: usize = 16_777_216;

/// The text of the certificate of the generators, where it is not too long to be read again.
pub(crate) fn certificate_answer(
    alloc: Global,
    gens: &Generators,
) -> Result<(Vec<u8>, Ending), NoMemory>
    requires { IsGenerators gens.now }
    ensures { IfOk result (λ a. IsMade gens.now.told a.0.items a.1) }
{
    match certify(alloc, gens) {
        Ok(certificate) => {
            let text = text_of(alloc, &certificate)?;
            if text.len() > MAX_TEXT {
                let line = incomplete_line(alloc, Phase::Certificate, Cause::Length)?;
                return Ok((line, Ending::Incomplete));
            }
            Ok((text, Ending::Done))
        }
        Err(CertifyStop::Degree { left, right }) => {
            let cause = Cause::Degree(left, right);
            let line = incomplete_line(alloc, Phase::Certificate, cause)?;
            Ok((line, Ending::Incomplete))
        }
        Err(CertifyStop::NoMemory) => Err(NoMemory),
    }
}

// Its text and a line feed.
fn text_of(alloc: Global, certificate: &Certificate) -> Result<Vec<u8>, NoMemory>
    ensures text { IfOk result (λ v. v.items ≡ certificate_text (plain certificate.now)) }
    ensures denoted { IfOk result (λ v. IsWritable (plain certificate.now) → DenotesCertificate v.items (plain certificate.now)) }
{
    let mut text = to_json(alloc, certificate)?;
    text.push(b'\n')?;
    Ok(text)
}
