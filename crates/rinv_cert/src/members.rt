//! What is read under a key of an object: a value, or the entries of an array; and which part is refused.

ghost use Rattle.std.specs.Prelude.{◌≡◌, ◌+◌, map, IfOk, IfErr, MatchOption, None, Some};
ghost use Rattle.serde_json.specs.View.{view, items_view};
ghost use Rattle.rinv_json.specs.Reading.{found, each_from};
ghost use Rattle.rinv_json.specs.Shapes.{under};
ghost use Rattle.rinv_json.specs.Certificates.{one, many};
ghost use Rattle.rinv_cert.specs.Faults.{part_word, Refuses};
ghost use Rattle.rinv_cert.specs.Parts.{array_at};

use crate::fault::{CertFault, CertStop, Part};
use crate::items::Items;
use crate::shape::Shape;
use serde_json::Value;
use std::alloc::{AllocError as NoMemory, Global};

/// The refusal of a part.
pub(crate) fn refusal(part: Part, index: u32) -> CertStop
    ensures { result ≡ CertStop.Fault (record { part = part; index = index }) }
{
    CertStop::Fault(CertFault { part, index })
}

/// The value under a key.
pub(crate) fn one<S: Shape>(alloc: Global, value: &Value, part: Part) -> Result<S, CertStop>
    ensures ok { IfOk result (λ x. one (part_word part) S.shape (view value.now) ≡ found x) }
    ensures fault { IfErr result (Refuses (one (part_word part) S.shape (view value.now))) }
{
    match member::<S>(alloc, value, part.word())? {
        Some(read) => Ok(read),
        None => Err(refusal(part, 0)),
    }
}

// The number of an entry. Numbers are u32: a longer array is answered as want of memory.
fn number_of(place: usize) -> Result<u32, CertStop>
    ensures ok { IfOk result (λ n. n ≡ place + 1) }
    ensures memory { IfErr result (λ e. e ≡ CertStop.NoMemory) }
{
    match u32::try_from(place) {
        Ok(k) if k < u32::MAX => Ok(k + 1),
        _ => Err(CertStop::NoMemory),
    }
}

// The entries of an array, each of one shape.
fn entries<S: Shape>(alloc: Global, values: &[Value], part: Part) -> Result<Items<S>, CertStop>
    ensures ok { IfOk result (λ xs. each_from (part_word part) S.shape 1 (map view values.now) ≡ found xs) }
    ensures fault { IfErr result (Refuses (each_from (part_word part) S.shape 1 (map view values.now))) }
{
    let mut read = Vec::new(alloc);
    'entries: for k in 0..values.len() {
        let Some(entry) = S::from_data(alloc, &values[k])? else {
            let number = number_of(k)?;
            return Err(refusal(part, number));
        };
        let Ok(()) = read.push(entry) else {
            return Err(CertStop::NoMemory);
        };
    }
    Ok(Items::new(read))
}

// The array under a key.
fn array_under<'a>(value: &'a Value, part: Part) -> Option<&'a [Value]>
    ensures { MatchOption result (array_at part (view value.now) ≡ None) (λ vs. array_at part (view value.now) ≡ Some (items_view vs.now)) }
{
    match value.get(part.word()) {
        Some(found) => match found.as_array() {
            Some(values) => Some(values),
            None => None,
        },
        None => None,
    }
}

/// The entries of the array under a key.
pub(crate) fn many<S: Shape>(alloc: Global, value: &Value, part: Part) -> Result<Items<S>, CertStop>
    ensures ok { IfOk result (λ xs. many (part_word part) S.shape (view value.now) ≡ found xs) }
    ensures fault { IfErr result (Refuses (many (part_word part) S.shape (view value.now))) }
{
    let Some(values) = array_under(value, part) else {
        return Err(refusal(part, 0));
    };
    let entries = entries::<S>(alloc, values, part)?;
    Ok(entries)
}

/// What is read under a key of an object.
pub(crate) fn member<S: Shape>(
    alloc: Global,
    value: &Value,
    key: &str,
) -> Result<Option<S>, NoMemory>
    ensures { IfOk result (λ o. o ≡ under key.now S.shape (view value.now)) }
{
    match value.get(key) {
        Some(found) => S::from_data(alloc, found),
        None => Ok(None),
    }
}
