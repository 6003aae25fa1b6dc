//! Names and numbers once more.

ghost use Rattle.std.specs.Prelude.{◌≡◌, IfOk};

use rinv_cert::{Items, Name};
use rinv_ring::NoMemory;
use std::alloc::Global;

/// The same names once more.
pub(crate) fn names_again(alloc: Global, names: &Items<Name>) -> Result<Items<Name>, NoMemory>
    ensures { IfOk result (λ r. r ≡ names.now) }
{
    let slice = names.as_slice();
    let mut copies = Vec::new(alloc);
    'names: for k in 0..slice.len() {
        let name = &slice[k];
        let text = String::from_str(alloc, name.as_str())?;
        copies.push(Name::new(text))?;
    }
    Ok(Items::new(copies))
}

/// The same numbers once more.
pub(crate) fn numbers_again(alloc: Global, numbers: &Items<u32>) -> Result<Items<u32>, NoMemory>
    ensures { IfOk result (λ r. r ≡ numbers.now) }
{
    let copies = numbers.as_slice().to_vec(alloc)?;
    Ok(Items::new(copies))
}
