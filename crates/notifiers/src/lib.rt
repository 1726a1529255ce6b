// Notifiers: what watches the queue, and decides when to send a notice and how severe it is.
//
// `severity`: how far the queue is from where it should be. `shown`: what a notifier is shown, and what it answers.
// `notifier`: what every notifier is. `sampler`: one that samples as its `spacing` says. `bytes`, `frames`: two
// spacings, by what has come. `representative`: a layer over any. `chosen`: one of these, by a letter. `showing`: a
// whole list of frames.
#![tactic(auto)]

pub mod bytes;
pub mod chosen;
pub mod frames;
pub mod notifier;
pub mod representative;
pub mod sampler;
pub mod severity;
pub mod showing;
pub mod shown;
mod spacing;
