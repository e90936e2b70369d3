// The numbers of a trace, read from bytes that may be anything. What is read tells the place behind it, as `number` of the definitions does, of whose
// places the theorems speak.
#![tactic(auto)]

ghost use Rattle.std.specs.Prelude.{◌≡◌, ◌<◌, ◌≤◌};
ghost use Rattle.numbers.specs.Groups.{longer, groups, number, row};

// A group b with the high bit on, in front of the groups behind it. Those make no 0, since the form is the shortest, and less than 2^57, since
// the number is below 2^64.
#[tactic(auto, unfolding(crate::specs::Groups::longer))]
fn longer(b: usize, higher: Option<(usize, usize)>) -> Option<(usize, usize)>
    requires b_bound { b < 256 }
    requires le_b { 128 ≤ b }
    ensures { result ≡ longer b higher }
{
    let (x, next) = higher?;
    if !(1..1 << 57).contains(&x) {
        return None;
    }
    Some((b - 128 + 128 * x, next))
}

// "A number is read group by group, at most ten groups."
#[tactic(auto, using(crate::proofs::Laws::groups_none, crate::proofs::Laws::groups_end, crate::proofs::Laws::groups_last, crate::proofs::Laws::groups_more))]
fn groups(s: &[u8], at: usize, allowed: usize) -> Option<(usize, usize)>
    ensures { result ≡ groups s.now allowed at }
{
    if allowed == 0 {
        return None;
    }
    let b = usize::from(*s.get(at)?);
    if b < 128 {
        return Some((b, at + 1));
    }
    longer(b, groups(s, at + 1, allowed - 1))
}

// The number at a place and the place after it, or no number.
pub fn number(s: &[u8], at: usize) -> Option<(usize, usize)>
    ensures { result ≡ number s.now at }
{
    groups(s, at, 10)
}

// N numbers from a place on, and the place after them.
#[tactic(auto, using(crate::proofs::Rows::row_short, crate::proofs::Rows::row_all))]
pub fn row<const N: usize>(s: &[u8], at: usize) -> Option<([usize; N], usize)>
    ensures { result ≡ row s.now N at }
{
    let mut row = [0; N];
    let mut next = at;
    for x in row.iter_mut() {
        (*x, next) = number(s, next)?;
    }
    Some((row, next))
}
