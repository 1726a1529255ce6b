// A first-in first-out ring, written once for every kind of record that can be copied, over memory that each call is handed.
//
// `fifo`: the ring and its calls. `fault`: why a call is refused. `calls`: a whole list of calls.
#![tactic(auto)]

pub mod calls;
pub mod fault;
pub mod fifo;
