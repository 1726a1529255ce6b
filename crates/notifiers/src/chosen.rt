ghost use Rattle.std.specs.Prelude.{◌≡◌};
ghost use Rattle.notifiers.specs.Chosen.{kind_of, chosen_new, chosen_meter, chosen_samples, chosen_next};
ghost use Rattle.std.proofs.Common.{rules};
ghost use Rattle.notifiers.specs.declared.chosen.ChosenNotifier.TheVariants.{Bytes, Frames, RepresentativeBytes, RepresentativeFrames};
ghost use Rattle.settings.specs.Letters.{named_or_told};

use crate::bytes::Bytes;
use crate::frames::Frames;
use crate::notifier::Notifier;
use crate::representative::Representative;
use crate::shown::{Showing, Shown};
use settings::accepted::Settings;
use settings::letter::UnknownLetter;

// The notifiers that there are.
#[derive(Clone, Copy)]
pub enum NotifierKind {
    Bytes,
    Frames,
    RepresentativeBytes,
    RepresentativeFrames,
}

// The notifier that a letter stands for in text.
impl TryFrom<char> for NotifierKind {
    type Error = UnknownLetter;

    ghost try_from_gives = { λ letter r. r ≡ named_or_told (kind_of letter) letter };

    fn try_from(letter: char) -> Result<Self, UnknownLetter> {
        match letter {
            'b' => Ok(NotifierKind::Bytes),
            'f' => Ok(NotifierKind::Frames),
            'B' => Ok(NotifierKind::RepresentativeBytes),
            'F' => Ok(NotifierKind::RepresentativeFrames),
            _ => Err(UnknownLetter(letter)),
        }
    }
}

// A notifier that is chosen while the program runs. An enum, since the kinds are closed and nothing may stand on the heap.
#[derive(Clone, Copy)]
pub enum ChosenNotifier {
    Bytes(Bytes),
    Frames(Frames),
    RepresentativeBytes(Representative<Bytes>),
    RepresentativeFrames(Representative<Frames>),
}

impl ChosenNotifier {
    pub fn new(kind: NotifierKind, settings: Settings) -> ChosenNotifier
        ensures answer { result ≡ chosen_new kind settings }
    {
        match kind {
            NotifierKind::Bytes => ChosenNotifier::Bytes(Bytes::new(settings)),
            NotifierKind::Frames => ChosenNotifier::Frames(Frames::new(settings)),
            NotifierKind::RepresentativeBytes => {
                ChosenNotifier::RepresentativeBytes(Representative::new(Bytes::new(settings)))
            }
            NotifierKind::RepresentativeFrames => {
                ChosenNotifier::RepresentativeFrames(Representative::new(Frames::new(settings)))
            }
        }
    }
}

impl Notifier for ChosenNotifier {
    ghost meter = { chosen_meter };

    ghost samples = { chosen_samples };

    ghost next = { chosen_next };

    ghost due = { elim [
      | Bytes x ↦ Prim.search rules
      | Frames x ↦ Prim.search rules
      | RepresentativeBytes x ↦ Prim.search rules
      | RepresentativeFrames x ↦ Prim.search rules
    ] };

    ghost moves = { Prim.search rules };

    ghost alone = { Prim.search rules };

    fn show(&mut self, shown: Shown) -> Showing {
        match self {
            ChosenNotifier::Bytes(notifier) => notifier.show(shown),
            ChosenNotifier::Frames(notifier) => notifier.show(shown),
            ChosenNotifier::RepresentativeBytes(notifier) => notifier.show(shown),
            ChosenNotifier::RepresentativeFrames(notifier) => notifier.show(shown),
        }
    }

    fn set_point(&self) -> u32 {
        match self {
            ChosenNotifier::Bytes(notifier) => notifier.set_point(),
            ChosenNotifier::Frames(notifier) => notifier.set_point(),
            ChosenNotifier::RepresentativeBytes(notifier) => notifier.set_point(),
            ChosenNotifier::RepresentativeFrames(notifier) => notifier.set_point(),
        }
    }

    fn weight(&self) -> u32 {
        match self {
            ChosenNotifier::Bytes(notifier) => notifier.weight(),
            ChosenNotifier::Frames(notifier) => notifier.weight(),
            ChosenNotifier::RepresentativeBytes(notifier) => notifier.weight(),
            ChosenNotifier::RepresentativeFrames(notifier) => notifier.weight(),
        }
    }

    fn old(&self) -> u32 {
        match self {
            ChosenNotifier::Bytes(notifier) => notifier.old(),
            ChosenNotifier::Frames(notifier) => notifier.old(),
            ChosenNotifier::RepresentativeBytes(notifier) => notifier.old(),
            ChosenNotifier::RepresentativeFrames(notifier) => notifier.old(),
        }
    }
}
