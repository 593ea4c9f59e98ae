//! Classes of the numbers that chains of links join, numbered by their least members.

ghost use Rattle.std.specs.Prelude.{IfOk};
ghost use Rattle.link_classes.specs.Classes.{AreClasses, AreInRange};

use crate::forest::Forest;
use std::alloc::{AllocError, Global};

/// A link between two numbers.
#[derive(Clone, Copy, Debug, PartialEq, Eq)]
pub struct Link {
    pub one: u32,
    pub other: u32,
}

/// The class of each number, and how many classes there are.
#[derive(Drop)]
pub struct Classes {
    pub class_of: Vec<u32>,
    pub count: u32,
}

/// The classes of the numbers below `n` that chains of the links join, numbered from 0 by their
/// least members.
///
/// Takes time in proportion to `n` and the number of links (times the inverse of Ackermann's
/// function, at most 4).
pub fn joined_classes(alloc: Global, n: u32, links: &[Link]) -> Result<Classes, AllocError>
    requires { AreInRange n links.now }
    ensures { IfOk result (λ c. AreClasses n links.now c.class_of.items c.count) }
{
    let mut forest = Forest::new(alloc, n)?;
    for link in links {
        forest.join(*link);
    }
    forest.number(alloc)
}
