ghost use Rattle.std.specs.Prelude.{◌≡◌, IfOk, OnOk};
ghost use Rattle.notifiers.specs.Published.{PublishedValues};
ghost use Rattle.notifiers.specs.Runs.{answers, after_all, Kept};

use crate::notifier::Notifier;
use crate::shown::{Showing, Shown};
use std::alloc::{AllocError, Global};

// Shows a notifier a whole list of frames, lawful or not. The law is on the answers that it gives.
#[tactic(auto, using(crate::proofs::Values::published_values), unfolding(crate::specs::Runs::answers, crate::specs::Runs::after_all))]
pub fn show_all<N: Notifier>(
    heap: Global,
    notifier: &mut N,
    frames: &[Shown],
) -> Result<Vec<Showing>, AllocError>
    ensures answer { IfOk result (λ v. v.items ≡ answers N.Notifier.meter N.Notifier.samples N.Notifier.next notifier.old frames.now) }
    ensures after { OnOk result (notifier.new ≡ after_all N.Notifier.meter N.Notifier.samples N.Notifier.next notifier.old frames.now) }
    ensures law { Kept (N.Notifier.meter notifier.old) frames.now (answers N.Notifier.meter N.Notifier.samples N.Notifier.next notifier.old frames.now) }
    ensures published { PublishedValues }
{
    let mut showings = Vec::new(heap);
    for frame in frames {
        showings.push(notifier.show(*frame))?;
    }
    Ok(showings)
}
