// Sets of numbers below 64 as the bits of a u64: union, a test for no common member, membership, one member more, the
// first numbers.

#![tactic(auto)]

ghost use Rattle.masks.specs.Masks.{United, Tested, Found, Added, Filled};

// The numbers that are in a or in b.
pub fn union(a: u64, b: u64) -> u64
    ensures { United a b result }
{
    a | b
}

// Whether no number is in both a and b.
pub fn disjoint(a: u64, b: u64) -> bool
    ensures { Tested a b result }
{
    a & b == 0
}

// Whether e is in m. A number from 64 on is in no set.
pub fn has(m: u64, e: u64) -> bool
    ensures { Found m e result }
{
    if e >= 64 {
        return false;
    }
    (m >> e) & 1 == 1
}

// The numbers of m, and e. A number from 64 on has no place in a set, and leaves m as it is.
pub fn with(m: u64, e: u64) -> u64
    ensures { Added m e result }
{
    if e >= 64 {
        return m;
    }
    m | (1u64 << e)
}

// The numbers below n: all 64 where n is larger.
pub fn full(n: u64) -> u64
    ensures { Filled n result }
{
    if n >= 64 {
        return u64::MAX;
    }
    (1u64 << n) - 1
}
