//! Terms, and the elements of a basis with their cofactors, as they are read and written.

ghost use Rattle.std.specs.Prelude.{[], ◌∷◌};
ghost use Rattle.rinv_json.specs.Shapes.{term, pair_of, list_of};
ghost use Rattle.rinv_json.specs.Written.{list_data, tuple_data, term_data};

use crate::certificate::{BasisItem, Term};
use crate::items::Items;
use crate::shape::Shape;
use crate::tuples::pair;
use serde_json::Value;
use std::alloc::{AllocError as NoMemory, Global};

impl Shape for Term {
    ghost shape = { term };

    ghost writes = { term_data };

    fn from_data(alloc: Global, value: &Value) -> Result<Option<Term>, NoMemory> {
        match <(u32, Items<u32>)>::from_data(alloc, value)? {
            Some((coefficient, exponents)) => Ok(Some(Term {
                coefficient,
                exponents,
            })),
            None => Ok(None),
        }
    }

    fn to_data(&self, alloc: Global) -> Result<Value, NoMemory> {
        let coefficient = self.coefficient.to_data(alloc)?;
        let exponents = self.exponents.to_data(alloc)?;
        let term = pair(alloc, coefficient, exponents)?;
        Ok(term)
    }
}

impl<P: Shape> Shape for BasisItem<P> {
    ghost shape = { pair_of P.shape (list_of P.shape) };

    ghost writes = { λ x. tuple_data (P.writes x.0 ∷ list_data P.writes x.1 ∷ []) };

    fn from_data(alloc: Global, value: &Value) -> Result<Option<BasisItem<P>>, NoMemory> {
        match <(P, Items<P>)>::from_data(alloc, value)? {
            Some((h, cofactors)) => Ok(Some(BasisItem { h, cofactors })),
            None => Ok(None),
        }
    }

    fn to_data(&self, alloc: Global) -> Result<Value, NoMemory> {
        let h = self.h.to_data(alloc)?;
        let cofactors = self.cofactors.to_data(alloc)?;
        let item = pair(alloc, h, cofactors)?;
        Ok(item)
    }
}
