//! Systems and the certificates of their generators, which are read and checked again; and systems that have none.

use rinv_cert::{Kind, from_json};
use rinv_certificates::answer;
use rinv_check::{Verdict, check};
use rinv_lines::Ending;
use std::alloc::Global;

// A text of a system, and how many generators it has.
type Row<'a> = (&'a [u8], usize);

const SYSTEMS: &[Row] = &[
    (
        b"field 101\ngroup a\nspace x, y\nunit 0\nproduct a+a'\ninverse -a\naction x+a, y\n",
        1,
    ),
    (
        b"field 101\ngroup a, b\nspace x, y\nideal a^2+b^2-1\nunit 1, 0\nproduct a*a'-b*b', a*b'+b*a'\ninverse a, -b\naction a*x-b*y, b*x+a*y\n",
        1,
    ),
    (
        b"field 101\ngroup a, b\nspace x, y\nideal a*b-1\nunit 1, 1\nproduct a*a', b*b'\ninverse b, a\naction a*x, a*y\n",
        1,
    ),
    (
        b"field 7\ngroup a\nspace x\nideal a^2-1\nunit 1\nproduct a*a'\ninverse a\naction a*x\n",
        1,
    ),
    (
        b"field 101\ngroup a, b, c\nspace x\nideal a*b-1\nunit 1, 1, 0\nproduct a*a', b*b', a*c'+c\ninverse b, a, -b*c\naction a*x+c\n",
        0,
    ),
    (
        b"field 5\ngroup a\nspace x\nideal a^5\nunit 0\nproduct a+a'\ninverse -a\naction x+a\n",
        1,
    ),
    (
        b"field 7\ngroup a\nspace x, y\nideal a^2-1\nunit 1\nproduct a*a'\ninverse a\naction 4*(1+a)*x+4*(1-a)*y, 4*(1-a)*x+4*(1+a)*y\n",
        2,
    ),
];

// The certificate of translations, and a line feed.
const TRANSLATIONS: &[u8] =
    b"{\"action\":[[[1,[1,0,0]],[1,[0,1,0]]],[[1,[0,0,1]]]],\"basis\":[[[[100,[1,0,0,0,0]],[1,[0,1,0,0,0]],[100,[0,0,0,1,0]]],[]],[[[1,[0,0,1,0,0]],[100,[0,0,0,0,1]]],[]]],\"field\":101,\"fractions\":[[[[1,[0,1]]],[[1,[0,0]]]]],\"group\":[\"a\"],\"ideal\":[],\"inputs\":[[[[1,[0,0,0,0,0]]],[]],[[],[[1,[0,0,0,0,0]]]]],\"invariance\":[[]],\"inverse\":[[[100,[1]]]],\"kind\":\"full\",\"laws\":{\"A2\":[[],[]],\"L2\":[],\"L3\":[],\"L4\":[[]],\"L5\":[[],[]],\"L6\":[[],[]]},\"pairs\":[[\"coprime\",1,2]],\"product\":[[[1,[1,0]],[1,[0,1]]]],\"relations\":[[[0,1],[[1,[0,0]]],[[[0,0],[[1,[0,1]]],[\"generator\",1]]],[]]],\"space\":[\"x\",\"y\"],\"unit\":[0],\"version\":1}\n";

// Systems without a certificate, what is printed for them, and how that ends.
const OTHERS: &[(&[u8], &[u8], Ending)] = &[
    (
        b"field 101\ngroup a, b\nspace x, y\nideal a^2+b^2-1\nunit 1, 0\nproduct a*a'-b*b', a*b'+b*a'\ninverse a, -b\naction a*x-b*y, b*x+a*y\nbudget pairs 0\n",
        b"incomplete action pairs 0\n",
        Ending::Incomplete,
    ),
    (
        b"field 101\ngroup a\nspace x\nunit 1\nproduct a+a'\ninverse -a\naction x+a\n",
        b"denied law L5 part 1 rest 1\n",
        Ending::Denied,
    ),
    (
        b"field 4\n",
        b"refused line 1 Field not listed\n",
        Ending::Refused,
    ),
];

// Whether the certificate of the text's system is printed and accepted, of kind `full`, with so many fractions.
fn is_certified(alloc: Global, text: &[u8], count: usize) -> bool {
    if text.len() > 10_000 {
        return false;
    }
    let Ok((printed, ending)) = answer(alloc, text) else {
        return false;
    };
    let Ok(certificate) = from_json(alloc, &printed) else {
        return false;
    };
    let Ok(verdict) = check(alloc, &certificate) else {
        return false;
    };
    ending == Ending::Done
        && verdict == Verdict::Yes
        && certificate.kind == Kind::Full
        && certificate.fractions.as_slice().len() == count
}

// Whether this is printed for the text, and ends so.
fn answers(alloc: Global, text: &[u8], wanted: &[u8], end: Ending) -> bool {
    if text.len() > 10_000 {
        return false;
    }
    let Ok((printed, ending)) = answer(alloc, text) else {
        return false;
    };
    printed.as_slice() == wanted && ending == end
}

// Whether each system is certified.
fn all_are_certified(alloc: Global) -> bool {
    for k in 0..SYSTEMS.len() {
        let (text, count) = SYSTEMS[k];
        if !is_certified(alloc, text, count) {
            return false;
        }
    }
    true
}

// Whether each of the others has its answer.
fn others_answer(alloc: Global) -> bool {
    for k in 0..OTHERS.len() {
        let (text, wanted, end) = OTHERS[k];
        if !answers(alloc, text, wanted, end) {
            return false;
        }
    }
    true
}

#[test]
fn certifies_systems(rt: HostRuntime) {
    assert!(rt;
        all_are_certified(rt.alloc()),
        "each is accepted, of kind full"
    );
}

#[test]
fn certifies_translations_so(rt: HostRuntime) {
    let (text, _count) = SYSTEMS[0];
    assert!(rt; answers(rt.alloc(), text, TRANSLATIONS, Ending::Done));
}

#[test]
fn says_why_there_is_none(rt: HostRuntime) {
    assert!(rt; others_answer(rt.alloc()), "a budget, a law, a line");
}
