// A letter that names nothing.
#[derive(Clone, Copy, PartialEq, Eq, Debug)]
pub struct UnknownLetter(pub char);
