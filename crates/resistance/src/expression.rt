// The expression of a resistance.
ghost use Rattle.std.specs.Prelude.{◌≡◌};
ghost use Rattle.resistance.specs.Expressions.{figure_of, Stands};

use crate::group::BoltGroup;
use crate::ratio::Ratio;
use crate::root::root_third;

// [ ] drops the fraction, and R is the figure under the root of three.
#[derive(Clone, Copy, PartialEq, Eq, Debug)]
pub enum Expression {
    // [x]
    Whole(Ratio),
    // R([x])
    Root(Ratio),
    // [x] + R([y])
    Sum(Ratio, Ratio),
    // a bolt group in eccentric shear
    Group(BoltGroup),
}

impl Expression {
    // The printed figure; `None` where 64 bits do not hold it, which only a sum can come to, and of a bolt group outside its limits.
    // Of every expression stands what makes the figure safe to quote: it is at or below the exact resistance, by less than the margin.
    pub fn figure(self) -> Option<u64>
        ensures value { result ≡ figure_of self }
        ensures stands { Stands self }
    {
        match self {
            Expression::Whole(x) => Some(x.floor()),
            Expression::Root(x) => Some(root_third(x.floor())),
            Expression::Sum(x, y) => x.floor().checked_add(root_third(y.floor())),
            Expression::Group(g) => g.figure(),
        }
    }
}
