// An order of one's own for the one scan.

ghost use Rattle.std.specs.Prelude.{ltb};
ghost use Rattle.std.proofs.lemmas.List.MinMax.{IsStrictWeakOrder-by_number, IsStrictWeakOrder-flip};

use least::{Ranked, least};

// A stream and its load, by which the greatest comes first. Its `Ord` goes by the number of the stream.
#[derive(Clone, Copy, PartialEq, Eq, PartialOrd, Ord, Debug)]
struct Loaded {
    stream: u64,
    load: u64,
}

impl Ranked for Loaded {
    ghost below = { λ x y. ltb y.load x.load };

    ghost ranks = { IsStrictWeakOrder-flip (λ x y. ltb x.load y.load) (IsStrictWeakOrder-by_number (λ x. x.load)) };

    fn precedes(&self, other: &Loaded) -> bool {
        self.load > other.load
    }
}

#[test]
fn the_first_of_those_that_tie(rt: HostRuntime) {
    let loads = [(1u64, 333u64), (2, 500), (3, 500)].map(|(stream, load)| Loaded { stream, load });
    assert_eq!(rt; least(&loads), Some(loads[1]));
    assert_eq!(rt; least(&loads[..1]), Some(loads[0]));
    assert_eq!(rt; least(&loads[..0]), None);
}
