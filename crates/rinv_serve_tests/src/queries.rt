//! Worked rows of `rewrite` and `run`, from the bytes read to the bytes written.

use crate::tests::run;
use rinv_serve::Status;
use std::alloc::{AllocError as NoMemory, Global};
use std::test::Fail;

const ROTATIONS: &str =
    "field 101\ngroup a, b\nspace x, y\nideal a^2+b^2-1\nunit 1, 0\nproduct a*a'-b*b', a*b'+b*a'\ninverse a, -b\naction a*x-b*y, b*x+a*y\n";

const TRANSLATIONS: &str =
    "field 101\ngroup a\nspace x, y\nunit 0\nproduct a+a'\ninverse -a\naction x+a, y\n";

const SCALINGS: &str =
    "field 101\ngroup a, b\nspace x, y\nideal a*b-1\nunit 1, 1\nproduct a*a', b*b'\ninverse b, a\naction a*x, a*y\n";

const SIGNS: &str =
    "field 7\ngroup a\nspace x, y\nideal a^2-1\nunit 1\nproduct a*a'\ninverse a\naction a*x, a*y\n";

// The command, the text of a system, the lines behind it, the answer and the status.
const ROWS: [(&str, &str, &str, &str, Status); 9] = [
    (
        "rewrite",
        ROTATIONS,
        "rewrite (x^2+y^2)^3/(1+x^2+y^2)\nrewrite (x^3+x*y^2)/(x^2+y^2)\n",
        "y1 = x^2 + y^2\nrewrite 1 = y1^3/(y1 + 1)\nrewrite 2 not invariant rest a*x + 100*b*y + 100*x\ncomplete\n",
        Status::Denied,
    ),
    (
        "rewrite",
        SCALINGS,
        "section y-1\nrewrite (x*y-x)/(y^2-y)\n",
        "y1 = x/y\nrewrite 1 vanishing denominator\ncomplete on section\n",
        Status::Denied,
    ),
    (
        "rewrite",
        SCALINGS,
        "section y-1\nrewrite x/y\n",
        "y1 = x/y\nrewrite 1 = y1\ncomplete on section\n",
        Status::Done,
    ),
    (
        "rewrite",
        SCALINGS,
        "section x-1, x-2\nrewrite x/y\n",
        "denied section misses element 1\n",
        Status::Denied,
    ),
    (
        "rewrite",
        SIGNS,
        "rewrite x^2\nrewrite x^3/y\n",
        "y1 = x/y\ny2 = y^2\nrewrite 1 = y1^2*y2\nrewrite 2 = y1^3*y2\ncomplete\n",
        Status::Done,
    ),
    (
        "rewrite",
        TRANSLATIONS,
        "rewrite 1/(y-y)\n",
        "refused line 8 ZeroDenominator\n",
        Status::Refused,
    ),
    (
        "run",
        ROTATIONS,
        "def r = x^2+y^2\nlaws\ninvariant r^2\ninvariant x\n",
        "laws 1 hold\ninvariant 2 yes\ninvariant 3 no rest a*x + 100*b*y + 100*x\ndone\n",
        Status::Denied,
    ),
    (
        "run",
        SCALINGS,
        "invariant x\nrewrite x/y\ngenerators\nrewrite y/x\n",
        "invariant 1 no rest a*x + 100*x\ny1 = x/y\nrewrite 2 = y1\ngenerators 3\ny1 = x/y\nrewrite 4 = 1/y1\ncomplete\n",
        Status::Denied,
    ),
    ("run", TRANSLATIONS, "", "done\n", Status::Done),
];

// Whether the command answers so to the text with lines behind it.
fn answers(alloc: Global, row: &(&str, &str, &str, &str, Status)) -> Result<bool, NoMemory> {
    let (command, text, lines, answer, status) = row;
    let input = format!(in alloc; "{text}{lines}")?;
    let words: &[&str] = &[*command];
    let (found, written) = run(alloc, words, input.into_bytes(), (100, 0), (100, 0), 200)?;
    Ok(found == *status && written.as_slice() == answer.as_bytes())
}

#[test]
fn answers_the_queries_of_scripts(rt: HostRuntime) -> Result<(), Fail> {
    for row in &ROWS {
        assert!(rt; answers(rt.alloc(), row)?, "{}", row.3);
    }
    Ok(())
}
