//! The text of the workload.

ghost use Rattle.std.specs.Prelude.{◌≡◌, ◌≤◌, ◌++◌, codes, IfOk, OnOk};
ghost use Rattle.rinv_workload.specs.Workload.{query_line, workload_text};

use std::alloc::{AllocError as NoMemory, Global};

/// The lines that come first: rotations of the plane, and an abbreviation.
const BEGIN: &str =
    "field 101\ngroup a, b\nspace x, y\nideal a^2+b^2-1\nunit 1, 0\nproduct a*a'-b*b', a*b'+b*a'\ninverse a, -b\naction a*x-b*y, b*x+a*y\ndef q = x^2+y^2\n";

/// The text of the workload with so many queries.
pub fn bench_text(alloc: Global, k: u32) -> Result<Vec<u8>, NoMemory>
    requires { (1 ≤ k) × (k ≤ 1000) }
    ensures { IfOk result (λ v. v.items ≡ workload_text k) }
{
    let mut text = Vec::from_slice(alloc, BEGIN.as_bytes())?;
    'queries: for i in 0..k {
        write_query(alloc, k, i + 1, &mut text)?;
    }
    Ok(text)
}

// Appends the line of a query, by its number.
fn write_query(alloc: Global, k: u32, i: u32, out: &mut Vec<u8>) -> Result<(), NoMemory>
    requires { (k ≤ 1000) × (i ≤ 1000) }
    ensures { OnOk result (out.new.items ≡ out.old.items ++ (query_line k i ++ codes "\n")) }
{
    let constant = (7 * i * i + 3 * i + k) % 101;
    let exponent = 1 + i % 3;
    let line = if i % 3 == 0 {
        format!(in alloc; "rewrite ((q+{constant})^{exponent}+x)/(q+{constant}+1)\n")?
    } else {
        format!(in alloc; "rewrite (q+{constant})^{exponent}/(q+{constant}+1)\n")?
    };
    out.extend_from_slice(line.as_bytes())?;
    Ok(())
}
