use limiters::limiter::Identity;

// A notice that is under way: slow down.
#[derive(Clone, Copy)]
pub struct Notice {
    pub to: Identity,
    // how severe
    pub value: u8,
}
