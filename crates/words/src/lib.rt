// Words of 64 bits as sets of nodes or values (specs/Word). What each operation gives is said number by number. The empty
// set is 0. It uses `numbers`. Internal: most of its functions have `requires`.
#![tactic(auto)]

ghost use Rattle.std.specs.Prelude.{◌≡◌, not, ◌&&◌, ◌||◌, ℕ, ◌≤◌, ◌<◌, eqb};
ghost use Rattle.numbers.specs.Sums.{only};
ghost use Rattle.std.specs.Iterator.{at_most};
ghost use Rattle.words.specs.Word.{word_bits, holds, SplitOf, NextOf};

// 1 for y in a set, 0 for y outside.
pub fn bit(word: u64, y: usize) -> u64
    requires { y < word_bits }
    ensures { (result ≡ only (holds word y) 1) × (result ≤ 1) }
{
    (word >> y) % 2
}

// Whether y is in a set.
pub fn has(word: u64, y: usize) -> bool
    requires { y < word_bits }
    ensures { result ≡ holds word y }
{
    bit(word, y) == 1
}

// The set of y alone.
pub fn one(y: usize) -> u64
    requires { y < word_bits }
    ensures { (z : ℕ) → holds result z ≡ eqb z y }
{
    1u64 << y
}

// What is in either of two sets.
pub fn either(a: u64, b: u64) -> u64
    ensures { (z : ℕ) → holds result z ≡ (holds a z || holds b z) }
{
    a | b
}

// What is in both of two sets.
pub fn both(a: u64, b: u64) -> u64
    ensures { (z : ℕ) → holds result z ≡ (holds a z && holds b z) }
{
    a & b
}

// What is in the first set and not in the second.
pub fn but(a: u64, b: u64) -> u64
    ensures { (z : ℕ) → holds result z ≡ (holds a z && not (holds b z)) }
{
    a & !b
}

// The least number of a set, and the set without it.
#[derive(Clone, Copy)]
pub struct Split {
    pub first: usize,
    pub rest: u64,
}

// The least number of a set that is not empty, and the rest: a lesser word.
pub fn take_first(word: u64) -> Split
    requires { 0 < word }
    ensures { SplitOf word result.first result.rest }
{
    let first = u64::trailing_zeros(word) as usize;
    let rest = word & (word - 1);
    Split { first, rest }
}

// The numbers of a set, one by one from the least: for x in Members(set).
#[derive(Drop)]
pub struct Members(pub u64);

impl Iterator for Members {
    type Item = usize;

    ghost next_gives = { λ s r t. NextOf s.0 r t.0 };

    ghost remaining = { λ s. at_most s.0 };

    fn next(&mut self) -> Option<usize> {
        if self.0 == 0 {
            return None;
        }
        let split = take_first(self.0);
        self.0 = split.rest;
        Some(split.first)
    }
}
