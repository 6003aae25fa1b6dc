//! The pairs of a certificate, as they are read and written.

ghost use Rattle.std.specs.Prelude.{◌≡◌, IfOk};
ghost use Rattle.serde_json.specs.View.{view};
ghost use Rattle.rinv_cert.specs.Shaped.{coprime_shape, chain_shape, quotients_shape, pair_shape, pair_written};

use crate::certificate::PairItem;
use crate::items::{Items, Name};
use crate::shape::Shape;
use crate::tuples::{quadruple, triple};
use serde_json::Value;
use std::alloc::{AllocError as NoMemory, Global};

// A pair with no common variable.
fn coprime<P: Shape>(alloc: Global, value: &Value) -> Result<Option<PairItem<P>>, NoMemory>
    ensures { IfOk result (λ o. o ≡ coprime_shape P.shape (view value.now)) }
{
    match <(Name, u32, u32)>::from_data(alloc, value)? {
        Some((word, i, j)) => {
            if word.is("coprime") {
                Ok(Some(PairItem::Coprime { i, j }))
            } else {
                Ok(None)
            }
        }
        None => Ok(None),
    }
}

// A pair with a third element.
fn chain<P: Shape>(alloc: Global, value: &Value) -> Result<Option<PairItem<P>>, NoMemory>
    ensures { IfOk result (λ o. o ≡ chain_shape P.shape (view value.now)) }
{
    match <(Name, u32, u32, u32)>::from_data(alloc, value)? {
        Some((word, i, j, k)) => {
            if word.is("chain") {
                Ok(Some(PairItem::Chain { i, j, k }))
            } else {
                Ok(None)
            }
        }
        None => Ok(None),
    }
}

// A pair with quotients.
fn quotients<P: Shape>(alloc: Global, value: &Value) -> Result<Option<PairItem<P>>, NoMemory>
    ensures { IfOk result (λ o. o ≡ quotients_shape P.shape (view value.now)) }
{
    match <(Name, u32, u32, Items<P>)>::from_data(alloc, value)? {
        Some((word, i, j, q)) => {
            if word.is("quotients") {
                Ok(Some(PairItem::Quotients { i, j, q }))
            } else {
                Ok(None)
            }
        }
        None => Ok(None),
    }
}

impl<P: Shape> Shape for PairItem<P> {
    ghost shape = { pair_shape P.shape };

    ghost writes = { pair_written P.writes };

    fn from_data(alloc: Global, value: &Value) -> Result<Option<PairItem<P>>, NoMemory> {
        match coprime::<P>(alloc, value)? {
            Some(item) => Ok(Some(item)),
            None => match chain::<P>(alloc, value)? {
                Some(item) => Ok(Some(item)),
                None => quotients::<P>(alloc, value),
            },
        }
    }

    fn to_data(&self, alloc: Global) -> Result<Value, NoMemory> {
        match self {
            PairItem::Coprime { i, j } => {
                let word = Value::try_from_str(alloc, "coprime")?;
                let item = triple(alloc, word, Value::from(*i), Value::from(*j))?;
                Ok(item)
            }
            PairItem::Chain { i, j, k } => {
                let word = Value::try_from_str(alloc, "chain")?;
                let third = Value::from(*k);
                let item = quadruple(alloc, word, Value::from(*i), Value::from(*j), third)?;
                Ok(item)
            }
            PairItem::Quotients { i, j, q } => {
                let word = Value::try_from_str(alloc, "quotients")?;
                let list = q.to_data(alloc)?;
                let item = quadruple(alloc, word, Value::from(*i), Value::from(*j), list)?;
                Ok(item)
            }
        }
    }
}
