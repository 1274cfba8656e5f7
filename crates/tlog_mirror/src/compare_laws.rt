//! Laws of the definitions that the contracts cite.
//!
//! A law is the contract of a function with an empty body: it consists of its proof.
ghost use Rattle.tlog_mirror.specs.Compared.{ComparesLarge, ForkIsNoPrefix, HeadsAreComparedOnce, SameIsPrefix};

/// The evidence that a line of `compare` gives. A list with the size and root of a fork is no prefix of the served
/// entries, whatever collides. Take a list with the size and root of a `same` line. It is a prefix of the served
/// entries, if the strings of its tree and of that prefix do not collide together. And a lawful view has one answer for
/// the same tree heads.
pub fn compare_law()
    ensures fork { ForkIsNoPrefix }
    ensures same { SameIsPrefix }
    ensures one { HeadsAreComparedOnce }
{}

/// Tree heads compared with four entries, under a digest that is a sum.
pub fn compare_example()
    ensures { ComparesLarge }
{}
