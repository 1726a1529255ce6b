use rates::rates::{Rates, Stages};

// What a limiter serves. The derive is the one place where identities are compared.
#[derive(Clone, Copy, PartialEq, Eq, Debug)]
pub struct Identity {
    pub flow: u32,
}

// A limiter in service. A plain row: memory may hold any.
#[derive(Clone, Copy)]
pub struct Row {
    pub serves: Identity,
    pub rates: Rates,
    // each stops at 255
    pub stages: Stages,
    // bytes since the byte stage last rose
    pub byte_count: u32,
    // µs
    pub time_left: u32,
    // thousandths of a bit
    pub credit: u32,
    // the greatest value heard, 0 to 63; 63 starts again from 0
    pub held: u8,
}

// An enum and no Option<Row>: free and in service are states with names, and a step is one match on state and event.
#[derive(Clone, Copy)]
pub enum Limiter {
    Free,
    InService(Row),
}
