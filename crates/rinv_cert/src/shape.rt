//! Values that are read from JSON values of one shape, and written as such: numbers, names and lists.

ghost use Rattle.std.specs.Prelude.{◌≡◌, IfOk, Option, option_map};
ghost use Rattle.serde_json.specs.Data.{Data, string};
ghost use Rattle.serde_json.specs.View.{view};
ghost use Rattle.serde_json.specs.Find.{as_str};
ghost use Rattle.rinv_json.specs.Shapes.{whole, list_of};
ghost use Rattle.rinv_json.specs.Written.{whole_data, list_data};

use crate::items::{Items, Name};
use serde_json::Value;
use std::alloc::{AllocError as NoMemory, Global};

/// A type whose values are read from JSON values of one shape, and written as such.
pub(crate) trait Shape: Drop + Sized {
    // What is read, where the value has the shape.
    ghost shape: { Data → Option Self };

    // As what it is written.
    ghost writes: { Self → Data };

    /// What is read, where the value has the shape.
    fn from_data(alloc: Global, value: &Value) -> Result<Option<Self>, NoMemory>
        ensures { IfOk result (λ o. o ≡ shape (view value.now)) };

    /// The JSON value as which it is written.
    fn to_data(&self, alloc: Global) -> Result<Value, NoMemory>
        ensures { IfOk result (λ v. view v ≡ writes self.now) };
}

impl Shape for u32 {
    ghost shape = { whole };

    ghost writes = { whole_data };

    fn from_data(_alloc: Global, value: &Value) -> Result<Option<u32>, NoMemory> {
        match value.as_u64() {
            Some(n) => Ok(u32::try_from(n).ok()),
            None => Ok(None),
        }
    }

    fn to_data(&self, _alloc: Global) -> Result<Value, NoMemory> {
        Ok(Value::from(*self))
    }
}

impl Shape for Name {
    ghost shape = { as_str };

    ghost writes = { string };

    fn from_data(alloc: Global, value: &Value) -> Result<Option<Name>, NoMemory> {
        match value.as_str() {
            Some(text) => {
                let text = String::from_str(alloc, text)?;
                Ok(Some(Name::new(text)))
            }
            None => Ok(None),
        }
    }

    fn to_data(&self, alloc: Global) -> Result<Value, NoMemory> {
        let text = String::from_str(alloc, self.as_str())?;
        Ok(Value::String(text))
    }
}

// The elements of an array, each of one shape.
fn elements<S: Shape>(alloc: Global, value: &Value) -> Result<Option<Vec<S>>, NoMemory>
    ensures { IfOk result (λ o. option_map (λ v. v.items) o ≡ list_of S.shape (view value.now)) }
{
    let Some(values) = value.as_array() else {
        return Ok(None);
    };
    let mut found = Vec::new(alloc);
    for item in values {
        match S::from_data(alloc, item)? {
            Some(element) => found.push(element)?,
            None => return Ok(None),
        }
    }
    Ok(Some(found))
}

// The array of the elements.
fn array<S: Shape>(alloc: Global, list: &[S]) -> Result<Value, NoMemory>
    ensures { IfOk result (λ v. view v ≡ list_data S.writes list.now) }
{
    let mut values = Vec::new(alloc);
    'elements: for k in 0..list.len() {
        let value = list[k].to_data(alloc)?;
        values.push(value)?;
    }
    Ok(Value::Array(values))
}

impl<S: Shape> Shape for Items<S> {
    ghost shape = { list_of S.shape };

    ghost writes = { list_data S.writes };

    fn from_data(alloc: Global, value: &Value) -> Result<Option<Items<S>>, NoMemory> {
        match elements::<S>(alloc, value)? {
            Some(list) => Ok(Some(Items::new(list))),
            None => Ok(None),
        }
    }

    fn to_data(&self, alloc: Global) -> Result<Value, NoMemory> {
        let value = array(alloc, self.as_slice())?;
        Ok(value)
    }
}
