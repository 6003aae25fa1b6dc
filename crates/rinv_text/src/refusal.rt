//! The first refusal of an expression, as far as its tokens and its formal numbers show it.

ghost use Rattle.std.specs.Prelude.{◌≡◌, Option};
ghost use Rattle.rinv_text.specs.declared.size.Size.{Size};
ghost use Rattle.rinv_text.specs.Sightings.{first_place, size_excess, excess_of, fault_of};

use crate::fault::{TextCode, TextFault};
use crate::limits::{first_unknown, is_past_limit};
use crate::size::Size;
use crate::token::Placed;

/// The place of the first token.
pub fn start(tokens: &[Placed]) -> u32
    ensures { result ≡ first_place tokens.now }
{
    match tokens.first() {
        Some(token) => token.place,
        None => 0,
    }
}

// What the size shows.
fn size_excess(size: Option<Size>) -> Option<TextCode>
    ensures { result ≡ size_excess size }
{
    match size {
        None => Some(TextCode::FormalDegree),
        Some(size) => {
            if size.is_high {
                Some(TextCode::FormalDegree)
            } else if size.is_long {
                Some(TextCode::FormalTerms)
            } else {
                None
            }
        }
    }
}

// What is too great in the expression.
fn excess(tokens: &[Placed], size: Option<Size>) -> Option<TextCode>
    ensures { result ≡ excess_of tokens.now size }
{
    if is_past_limit(tokens) {
        return Some(TextCode::Limit);
    }
    size_excess(size)
}

/// The first refusal of an expression of this size, where there are `count` names.
pub fn refusal(count: u32, tokens: &[Placed], size: Option<Size>) -> Option<TextFault>
    ensures { result ≡ fault_of count tokens.now size }
{
    if let Some(place) = first_unknown(count, tokens) {
        return Some(TextFault {
            place,
            code: TextCode::Name,
        });
    }
    match excess(tokens, size) {
        Some(code) => Some(TextFault {
            place: start(tokens),
            code,
        }),
        None => None,
    }
}
