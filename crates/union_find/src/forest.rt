//! Trees of joined things, each below a lesser one or a root.

ghost use Rattle.std.specs.Prelude.{◌≡◌, ℕ, ◌<◌, List, length, get_or, min, max, All, IfOk};
ghost use Rattle.union_find.specs.Leasts.{AreLeasts};
ghost use Rattle.union_find.specs.Roots.{IsBelow, root, moved, AreJoined};

use crate::pair::Pair;
use mp_base::NoMemory;
use std::alloc::{AllocError, Global};

/// The least of each thing's class, where each pair joins its two: things are numbered from 0 up to `count`.
pub fn leasts(alloc: Global, count: u32, pairs: &[Pair]) -> Result<Vec<u32>, NoMemory>
    requires { All (λ p. (p.a < count) × (p.b < count)) pairs.now }
    ensures { IfOk result (λ v. AreLeasts count pairs.now v.items) }
{
    let mut parents = apart(alloc, count)?;
    let table = parents.as_mut_slice();
    join_all(table, pairs);
    flatten(table);
    Ok(parents)
}

// Each thing as its own root.
fn apart(alloc: Global, count: u32) -> Result<Vec<u32>, AllocError>
    ensures { IfOk result (λ v. (length v.items ≡ count) × ((k : ℕ) → k < count → get_or v.items k 0 ≡ k)) }
{
    let mut parents = Vec::new(alloc);
    for thing in 0..count {
        parents.push(thing)?;
    }
    Ok(parents)
}

// Joins the two of each pair.
fn join_all(parents: &mut [u32], pairs: &[Pair])
    requires inside { All (λ p. (p.a < length parents.old) × (p.b < length parents.old)) pairs.now }
    requires start { AreJoined pairs.now 0 parents.old }
    ensures { AreJoined pairs.now (length pairs.now) parents.new }
{
    for pair in pairs {
        join(parents, pair.a, pair.b);
    }
}

// Makes the greater of the two roots a child of the other.
fn join(parents: &mut [u32], a: u32, b: u32)
    requires a_in { a < length parents.old }
    requires b_in { b < length parents.old }
    requires below { IsBelow parents.old }
    ensures moved { let r = root parents.old a in let s = root parents.old b in (k : ℕ)
        → root parents.new k ≡ moved (max r s) (min r s) (root parents.old k) }
    ensures still { IsBelow parents.new }
{
    let r = find(parents, a);
    let s = find(parents, b);
    if r < s {
        parents[s as usize] = r;
    } else if s < r {
        parents[r as usize] = s;
    }
}

// The root of a thing. What stands on the way is moved up.
#[tactic(auto, using(crate::proofs::Roots::root_at))]
fn find(parents: &mut [u32], thing: u32) -> u32
    requires in_range { thing < length parents.old }
    requires below { IsBelow parents.old }
    ensures root { result ≡ root parents.old thing }
    ensures kept { (k : ℕ) → root parents.new k ≡ root parents.old k }
    ensures still { IsBelow parents.new }
    ensures standing { get_or parents.new result 0 ≡ result }
    ensures inside { result < length parents.new }
{
    let mut x = thing;
    while parents[x as usize] != x {
        let up = parents[parents[x as usize] as usize];
        parents[x as usize] = up;
        x = up;
    }
    x
}

// Writes each root at its place.
fn flatten(parents: &mut [u32])
    requires { IsBelow parents.old }
    ensures { (k : ℕ) → k < length parents.old → get_or parents.new k 0 ≡ root parents.old k }
{
    for i in 0..parents.len() {
        let up = parents[i];
        parents[i] = parents[up as usize];
    }
}

#[cfg(test)]
mod tests {
    use super::leasts;
    use crate::pair::Pair;
    use std::test::Fail;

    #[test]
    fn classes_have_their_leasts(rt: HostRuntime) -> Result<(), Fail> {
        let pairs = [(6, 4), (2, 7), (4, 1), (7, 7), (1, 6)].map(|(a, b)| Pair { a, b });
        assert!(rt; pairs.iter().all(|p| p.a < 8 && p.b < 8));
        let least = leasts(rt.alloc(), 8, &pairs)?;
        assert_eq!(rt; least.as_slice(), [0, 1, 2, 3, 1, 5, 1, 2].as_slice());
        Ok(())
    }
}
