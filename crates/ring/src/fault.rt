// Why a call is refused.
#[derive(Clone, Copy, PartialEq, Eq, Debug)]
pub enum RingFault {
    // The memory has not as many places as the ring.
    Size,
    // A push found every place taken.
    Full,
    // No item waits.
    Empty,
}
