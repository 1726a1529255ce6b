ghost use Rattle.std.specs.Prelude.{◌≡◌, is_ok, IfErr};
ghost use Rattle.line.specs.State.{state, sized};
ghost use Rattle.tally.specs.declared.fault.CallFault.TheVariants.{Memory};

use crate::uplink::Line;
use tally::fault::CallFault;
use tally::frame::Frame;
use tally::notice::Notice;

impl<R, N> Line<R, N> {
    // Refuses memories that are not both of the size that opening fixed.
    pub(crate) fn check_sizes(&self, frames: &[Frame], wire: &[Notice]) -> Result<(), CallFault>
        ensures answer { is_ok result ≡ sized (state self.now frames.now wire.now) }
        ensures refused { IfErr result (λ e. e ≡ Memory) }
    {
        if frames.len() == self.frames.size() && wire.len() == self.wire.size() {
            Ok(())
        } else {
            Err(CallFault::Memory)
        }
    }
}
