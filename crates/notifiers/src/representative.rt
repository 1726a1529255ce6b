ghost use Rattle.std.specs.Prelude.{◌≡◌};
ghost use Rattle.notifiers.specs.Representative.{withheld, covered, over};
ghost use Rattle.std.proofs.Common.{rules};

use crate::notifier::Notifier;
use crate::shown::{Showing, Shown};

// A layer over any notifier: all is as below, but a notice that is not above the frame's mark is withheld.
#[derive(Clone, Copy)]
pub struct Representative<N> {
    below: N,
}

impl<N> Representative<N> {
    pub fn new(below: N) -> Representative<N>
        ensures answer { result ≡ over below }
    {
        Representative { below }
    }
}

fn covered(showing: Showing, mark: u8) -> Showing
    ensures answer { result ≡ covered mark showing }
{
    match showing {
        Showing::Notice(value) if value <= mark => Showing::Quiet,
        other => other,
    }
}

impl<N: Notifier> Notifier for Representative<N> {
    ghost meter = { λ x. withheld (N.Notifier.meter x.below) };

    ghost samples = { λ x s. N.Notifier.samples x.below s };

    ghost next = { λ x s. over (N.Notifier.next x.below s) };

    ghost due = { Prim.search rules };

    ghost moves = { Prim.search rules };

    ghost alone = { Prim.search rules };

    fn show(&mut self, shown: Shown) -> Showing {
        covered(self.below.show(shown), shown.mark)
    }

    fn set_point(&self) -> u32 {
        self.below.set_point()
    }

    fn weight(&self) -> u32 {
        self.below.weight()
    }

    fn old(&self) -> u32 {
        self.below.old()
    }
}
