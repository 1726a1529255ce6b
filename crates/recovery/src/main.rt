// When is a flow back at the line rate after this feedback record, if its sender stays silent?
// A line with the settings and a line with the record on standard input; the answer on standard output.
#![tactic(auto)]

use report::telling::answer;
use std::io;
use std::io::Read;

fn main(rt: HostRuntime) -> io::Result<()> {
    let heap = rt.alloc();
    let mut input = Vec::new(heap);
    rt.stdin().read_to_end(&mut input)?;
    rt.print(answer(heap, input.as_slice())?)
}
