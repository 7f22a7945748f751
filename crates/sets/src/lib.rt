// Sets of numbers below 64 (portions of track, or gates) held as one u64: p is a member where binary digit p is 1.
#![tactic(auto)]

ghost use Rattle.std.specs.Prelude.{◌≡◌};
ghost use Rattle.sets.specs.Sets as Sets;

mod table;

pub use table::up_to;

// p is a member. No number from 64 on is one.
pub fn has(set: u64, p: u16) -> bool
    ensures { result ≡ Sets.has p set }
{
    if p < 64 { (set >> p) % 2 == 1 } else { false }
}

// The numbers below 64 from first to last, both included; none where last is below first.
pub fn run(first: u16, last: u16) -> u64
    ensures { result ≡ Sets.run first last }
{
    if 63 < first {
        return 0;
    }
    if last < first {
        return 0;
    }
    up_to(last - first) << first
}

// The two sets share a member.
#[tactic(auto, using(crate::proofs::Laws::shares_and))]
pub fn overlap(a: u64, b: u64) -> bool
    ensures { result ≡ Sets.shares a b }
{
    a & b != 0
}

// Every member of a is a member of b.
#[tactic(auto, using(crate::proofs::Laws::subset_and))]
pub fn subset(a: u64, b: u64) -> bool
    ensures { result ≡ Sets.subset a b }
{
    a & b == a
}

// The set with p in it. A number from 64 on is left out.
pub fn with(set: u64, p: u16) -> u64
    ensures { result ≡ Sets.insert p set }
{
    if p < 64 { set | (1u64 << p) } else { set }
}

// The set without p.
pub fn without(set: u64, p: u16) -> u64
    ensures { result ≡ Sets.remove p set }
{
    if p < 64 { set & !(1u64 << p) } else { set }
}

// The members of a and those of b.
pub fn union(a: u64, b: u64) -> u64
    ensures { result ≡ Sets.union a b }
{
    a | b
}

// The members of a that b has not.
pub fn difference(a: u64, b: u64) -> u64
    ensures { result ≡ Sets.difference a b }
{
    a & !b
}

// How many members the set has: the count of ones.
pub fn size(set: u64) -> u32
    ensures { result ≡ Sets.size set }
{
    u64::count_ones(set)
}

// The least member of the set, 64 where it has none.
// Kept: 64 here and below, and no Option: it is what the machine counts, and the sheet, which alone asks, has no sign
// for none: an authority's limits have a member.
#[tactic(auto, using(crate::proofs::Ends::least_zeros))]
pub fn least(set: u64) -> u32
    ensures { result ≡ Sets.least set }
{
    u64::trailing_zeros(set)
}

// The greatest member of the set, 64 where it has none.
pub fn greatest(set: u64) -> u32
    ensures { result ≡ Sets.greatest set }
{
    if set == 0 {
        return 64;
    }
    63 - u64::leading_zeros(set)
}
