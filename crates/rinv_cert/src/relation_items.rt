//! The relations of a certificate, as they are read and written.

ghost use Rattle.rinv_json.specs.Shapes.{whole, list_of, triple_of, quadruple_of};
ghost use Rattle.rinv_cert.specs.Shaped.{tied_shape, tied_written, tail_written, relation_written};

use crate::certificate::{RelationItem, TailItem, Tied};
use crate::items::{Items, Name};
use crate::shape::Shape;
use crate::tuples::{pair, quadruple, triple};
use serde_json::Value;
use std::alloc::{AllocError as NoMemory, Global};

impl Shape for Tied {
    ghost shape = { tied_shape };

    ghost writes = { tied_written };

    fn from_data(alloc: Global, value: &Value) -> Result<Option<Tied>, NoMemory> {
        let Some((word, n)) = <(Name, u32)>::from_data(alloc, value)? else {
            return Ok(None);
        };
        if word.is("constant") {
            Ok(Some(Tied::Constant { v: n }))
        } else if word.is("generator") {
            Ok(Some(Tied::Generator { k: n }))
        } else {
            Ok(None)
        }
    }

    fn to_data(&self, alloc: Global) -> Result<Value, NoMemory> {
        let (word, n) = match self {
            Tied::Constant { v } => ("constant", *v),
            Tied::Generator { k } => ("generator", *k),
        };
        let word = String::from_str(alloc, word)?;
        let tied = pair(alloc, Value::String(word), Value::from(n))?;
        Ok(tied)
    }
}

impl<P: Shape> Shape for TailItem<P> {
    ghost shape = { triple_of (list_of whole) P.shape tied_shape };

    ghost writes = { tail_written P.writes };

    fn from_data(alloc: Global, value: &Value) -> Result<Option<TailItem<P>>, NoMemory> {
        match <(Items<u32>, P, Tied)>::from_data(alloc, value)? {
            Some((alpha, c, tied)) => Ok(Some(TailItem { alpha, c, tied })),
            None => Ok(None),
        }
    }

    fn to_data(&self, alloc: Global) -> Result<Value, NoMemory> {
        let alpha = self.alpha.to_data(alloc)?;
        let c = self.c.to_data(alloc)?;
        let tied = self.tied.to_data(alloc)?;
        let item = triple(alloc, alpha, c, tied)?;
        Ok(item)
    }
}

impl<P: Shape> Shape for RelationItem<P> {
    ghost shape = { quadruple_of (list_of whole) P.shape (list_of (triple_of (list_of whole) P.shape tied_shape)) (list_of P.shape) };

    ghost writes = { relation_written P.writes };

    fn from_data(alloc: Global, value: &Value) -> Result<Option<RelationItem<P>>, NoMemory> {
        match <(Items<u32>, P, Items<TailItem<P>>, Items<P>)>::from_data(alloc, value)? {
            Some((a, d, tail, cofactors)) => Ok(Some(RelationItem {
                a,
                d,
                tail,
                cofactors,
            })),
            None => Ok(None),
        }
    }

    fn to_data(&self, alloc: Global) -> Result<Value, NoMemory> {
        let a = self.a.to_data(alloc)?;
        let d = self.d.to_data(alloc)?;
        let tail = self.tail.to_data(alloc)?;
        let cofactors = self.cofactors.to_data(alloc)?;
        let item = quadruple(alloc, a, d, tail, cofactors)?;
        Ok(item)
    }
}
