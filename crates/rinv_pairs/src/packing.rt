//! Ranks packed into words: lists of numbers that compare word by word, four numbers at a time.

ghost use Rattle.std.specs.Prelude.{◌≡◌, ◌<◌, ℕ, List, IfOk};
ghost use Rattle.rinv_pairs.specs.Packing.{after, after_four, packed, part, word};

use std::alloc::{AllocError as NoMemory, Global};

// The first numbers in words, and what is left.
pub(crate) type Packed = ([u64; 6], Vec<u32>);

// The list in words.
pub(crate) fn pack(alloc: Global, numbers: &[u32]) -> Result<Packed, NoMemory>
    ensures { IfOk result (λ p. ◌≡◌ {A = List ℕ × List ℕ} (p.0, p.1.items) (packed numbers.now)) }
{
    let second = after_four(numbers);
    let third = after_four(second);
    let fourth = after_four(third);
    let fifth = after_four(fourth);
    let sixth = after_four(fifth);
    let words = [
        word(numbers),
        word(second),
        word(third),
        word(fourth),
        word(fifth),
        word(sixth),
    ];
    let left = after_four(sixth).to_vec(alloc)?;
    Ok((words, left))
}

// The first four numbers, the first of them in the highest place.
fn word(numbers: &[u32]) -> u64
    ensures { result ≡ word numbers.now }
{
    let second = after(numbers);
    let third = after(second);
    let fourth = after(third);
    let left = part(numbers) * 65536 + part(second);
    (left * 65536 + part(third)) * 65536 + part(fourth)
}

// What is left after four numbers.
fn after_four(numbers: &[u32]) -> &[u32]
    ensures { result.now ≡ after_four numbers.now }
{
    after(after(after(after(numbers))))
}

// One more than the first number, or 0 where there is none; 65535 stands for all numbers that do not fit.
fn part(numbers: &[u32]) -> u64
    ensures value { result ≡ part numbers.now }
    ensures fits { result < 65536 }
{
    let Some(first) = numbers.first() else {
        return 0;
    };
    if *first < 65534 {
        u64::from(*first) + 1
    } else {
        65535
    }
}

// What is left after the first number, where that fits.
fn after(numbers: &[u32]) -> &[u32]
    ensures { result.now ≡ after numbers.now }
{
    let Some((first, rest)) = numbers.split_first() else {
        return numbers;
    };
    if *first < 65534 { rest } else { numbers }
}
