//! Arrays of two, three and four values, each of its own shape.

ghost use Rattle.std.specs.Prelude.{◌≡◌, [], ◌∷◌, IfOk};
ghost use Rattle.serde_json.specs.View.{view};
ghost use Rattle.rinv_json.specs.Shapes.{pair_of, triple_of, quadruple_of};
ghost use Rattle.rinv_json.specs.Written.{tuple_data};

use crate::shape::Shape;
use serde_json::Value;
use std::alloc::{AllocError as NoMemory, Global};

/// An array of two.
pub(crate) fn pair(alloc: Global, first: Value, second: Value) -> Result<Value, NoMemory>
    ensures { IfOk result (λ v. view v ≡ tuple_data (view first ∷ view second ∷ [])) }
{
    let mut values = Vec::new(alloc);
    values.push(first)?;
    values.push(second)?;
    Ok(Value::Array(values))
}

/// An array of three.
pub(crate) fn triple(
    alloc: Global,
    first: Value,
    second: Value,
    third: Value,
) -> Result<Value, NoMemory>
    ensures { IfOk result (λ v. view v ≡ tuple_data (view first ∷ view second ∷ view third ∷ [])) }
{
    let mut values = Vec::new(alloc);
    values.push(first)?;
    values.push(second)?;
    values.push(third)?;
    Ok(Value::Array(values))
}

/// An array of four.
pub(crate) fn quadruple(
    alloc: Global,
    first: Value,
    second: Value,
    third: Value,
    fourth: Value,
) -> Result<Value, NoMemory>
    ensures { IfOk result (λ v. view v ≡ tuple_data (view first ∷ view second ∷ view third ∷ view fourth ∷ [])) }
{
    let mut values = Vec::new(alloc);
    values.push(first)?;
    values.push(second)?;
    values.push(third)?;
    values.push(fourth)?;
    Ok(Value::Array(values))
}

impl<A: Shape, B: Shape> Shape for (A, B) {
    ghost shape = { pair_of A.shape B.shape };

    ghost writes = { λ x. tuple_data (A.writes x.0 ∷ B.writes x.1 ∷ []) };

    fn from_data(alloc: Global, value: &Value) -> Result<Option<(A, B)>, NoMemory> {
        let Some(values) = value.as_array() else {
            return Ok(None);
        };
        let values: &[Value] = values;
        if values.len() != 2 {
            return Ok(None);
        }
        let Some(first) = A::from_data(alloc, &values[0])? else {
            return Ok(None);
        };
        let Some(second) = B::from_data(alloc, &values[1])? else {
            return Ok(None);
        };
        Ok(Some((first, second)))
    }

    fn to_data(&self, alloc: Global) -> Result<Value, NoMemory> {
        let first = self.0.to_data(alloc)?;
        let second = self.1.to_data(alloc)?;
        let tuple = pair(alloc, first, second)?;
        Ok(tuple)
    }
}

impl<A: Shape, B: Shape, C: Shape> Shape for (A, B, C) {
    ghost shape = { triple_of A.shape B.shape C.shape };

    ghost writes = { λ x. tuple_data (A.writes x.0 ∷ B.writes x.1 ∷ C.writes x.2 ∷ []) };

    fn from_data(alloc: Global, value: &Value) -> Result<Option<(A, B, C)>, NoMemory> {
        let Some(values) = value.as_array() else {
            return Ok(None);
        };
        let values: &[Value] = values;
        if values.len() != 3 {
            return Ok(None);
        }
        let Some(first) = A::from_data(alloc, &values[0])? else {
            return Ok(None);
        };
        let Some(second) = B::from_data(alloc, &values[1])? else {
            return Ok(None);
        };
        let Some(third) = C::from_data(alloc, &values[2])? else {
            return Ok(None);
        };
        Ok(Some((first, second, third)))
    }

    fn to_data(&self, alloc: Global) -> Result<Value, NoMemory> {
        let first = self.0.to_data(alloc)?;
        let second = self.1.to_data(alloc)?;
        let third = self.2.to_data(alloc)?;
        let tuple = triple(alloc, first, second, third)?;
        Ok(tuple)
    }
}

impl<A: Shape, B: Shape, C: Shape, D: Shape> Shape for (A, B, C, D) {
    ghost shape = { quadruple_of A.shape B.shape C.shape D.shape };

    ghost writes = { λ x. tuple_data (A.writes x.0 ∷ B.writes x.1 ∷ C.writes x.2 ∷ D.writes x.3 ∷ []) };

    fn from_data(alloc: Global, value: &Value) -> Result<Option<(A, B, C, D)>, NoMemory> {
        let Some(values) = value.as_array() else {
            return Ok(None);
        };
        let values: &[Value] = values;
        if values.len() != 4 {
            return Ok(None);
        }
        let Some(first) = A::from_data(alloc, &values[0])? else {
            return Ok(None);
        };
        let Some(second) = B::from_data(alloc, &values[1])? else {
            return Ok(None);
        };
        let Some(third) = C::from_data(alloc, &values[2])? else {
            return Ok(None);
        };
        let Some(fourth) = D::from_data(alloc, &values[3])? else {
            return Ok(None);
        };
        Ok(Some((first, second, third, fourth)))
    }

    fn to_data(&self, alloc: Global) -> Result<Value, NoMemory> {
        let first = self.0.to_data(alloc)?;
        let second = self.1.to_data(alloc)?;
        let third = self.2.to_data(alloc)?;
        let fourth = self.3.to_data(alloc)?;
        let tuple = quadruple(alloc, first, second, third, fourth)?;
        Ok(tuple)
    }
}
