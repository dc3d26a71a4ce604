// Shorter ways to Sum2, where the terms are above zero and the sum is finite: a smaller term by FastTwoSum, and equal terms from 4 b or 5 b on.
#![tactic(auto)]

ghost use Rattle.std.specs.Prelude.{◌≤◌};
ghost use Rattle.shorter_sums.specs.Shorter.{SmallerAdded, OneAdded, EqualAdded, MoreAdded};

use numeric::sum2::Accumulator;

// A term above zero and at most s, by FastTwoSum: what the sum loses is b - (x - s). It is the same sum, where that is finite.
pub fn add_smaller(a: Accumulator, b: f64) -> Accumulator
    ensures { SmallerAdded a b result }
{
    let x = a.s + b;
    Accumulator {
        s: x,
        c: a.c + (b - (x - a.s)),
    }
}

// A sum of one finite term. Nothing is lost, so the correction is 0; the term is added to 0, as -0 would stay otherwise.
pub fn one_term(b: f64) -> Accumulator
    ensures { OneAdded b result }
{
    Accumulator { s: 0.0 + b, c: 0.0 }
}

// Where a is the Sum2 of k terms b, that of m of them. Each is at most the sum of those before it. It is inlined at both calls, on the mixing's hot path.
#[inline(always)]
fn with_more(a: Accumulator, b: f64, k: usize, m: usize) -> Accumulator
    requires { k ≤ m }
    ensures { MoreAdded a b k m result }
{
    let mut sum = a;
    for _ in k..m {
        sum = add_smaller(sum, b);
    }
    sum
}

// Sum2 of equal terms, of more than three from 4 b or 5 b on: four terms lose nothing, and neither of the two waits for a sum of the terms before it.
// It is the same sum where they are above zero and it is finite.
pub fn equal_terms(b: f64, m: usize) -> Accumulator
    requires { 1 ≤ m }
    ensures { EqualAdded b m result }
{
    if m < 4 {
        return with_more(Accumulator { s: b, c: 0.0 }, b, 1, m);
    }
    let four = 4.0 * b;
    if m == 4 {
        return Accumulator { s: four, c: 0.0 };
    }
    let five = 5.0 * b;
    let sum = Accumulator {
        s: five,
        c: b - (five - four),
    };
    with_more(sum, b, 5, m)
}
