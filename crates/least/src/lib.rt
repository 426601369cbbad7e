// One scan for the least item of a slice, over any order.

#![tactic(auto)]

ghost use Rattle.std.specs.Prelude.{◌≡◌, Bool, if◌then◌else◌};
ghost use Rattle.std.specs.Cmp.{IsStrictWeakOrder};
ghost use Rattle.least.specs.Firsts.{FirstLeast};
ghost use Rattle.least.specs.Orders.{point_below, pair_below};
ghost use Rattle.least.specs.Rankings.{ranks_points, ranks_pairs};

use stream::Point;

// Items in an order: `below` says which of two comes strictly first, and items that tie are as good as each other.
pub trait Ranked {
    ghost below: { Self → Self → Bool };

    fn precedes(&self, other: &Self) -> bool
        ensures { result ≡ below self.now other.now };

    ghost ranks: { IsStrictWeakOrder below };
}

// The one of two items that comes first; of two that tie, the one that stood first.
fn earlier<X: Ranked + Copy>(best: X, item: X) -> X
    ensures { result ≡ (if X.below item best then item else best) }
{
    if item.precedes(&best) { item } else { best }
}

// The first of the least items, or none of an empty slice.
pub fn least<X: Ranked + Copy>(items: &[X]) -> Option<X>
    ensures { FirstLeast X.below items.now result }
{
    items.iter().copied().reduce(earlier)
}

// The nearest to failing comes first.
impl Ranked for Point {
    ghost below = { point_below };

    ghost ranks = { ranks_points };

    fn precedes(&self, other: &Point) -> bool {
        *self < *other
    }
}

// Not one impl for every `X: Ord`: that would ask more of callers, who may rank a type that has an `Ord` by another order, as the examples do.
impl Ranked for (u64, u64) {
    ghost below = { pair_below };

    ghost ranks = { ranks_pairs };

    fn precedes(&self, other: &(u64, u64)) -> bool {
        self < other
    }
}
