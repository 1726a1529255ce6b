use crate::frames::Frame;
use crate::notices::Notice;
use ring::fault::RingFault;
use ring::fifo::Ring;

const FIRST: Notice = Notice { flow: 1, value: 10 };

const SECOND: Notice = Notice { flow: 2, value: 20 };

const THIRD: Notice = Notice { flow: 3, value: 30 };

const BLANK: Notice = Notice { flow: 0, value: 0 };

const FRAME: Frame = Frame {
    flow: 7,
    length: 1500,
    mark: 3,
};

const PLACES: usize = 2;

// The third notice lies where the first one lay, and comes out last.
#[test]
fn order_over_the_end(rt: HostRuntime) {
    let mut memory = [BLANK; PLACES];
    let mut ring = Ring::new(PLACES);
    assert_eq!(rt; ring.push(&mut memory, FIRST), Ok(()));
    assert_eq!(rt; ring.push(&mut memory, SECOND), Ok(()));
    assert_eq!(rt; ring.pop(&memory), Ok(FIRST));
    assert_eq!(rt; ring.push(&mut memory, THIRD), Ok(()));
    assert_eq!(rt; ring.oldest(&memory), Ok(SECOND));
    assert_eq!(rt; ring.pop(&memory), Ok(SECOND));
    assert_eq!(rt; ring.pop(&memory), Ok(THIRD));
    assert_eq!(rt; ring.pop(&memory), Err(RingFault::Empty));
}

#[test]
fn no_places(rt: HostRuntime) {
    let mut memory: [Frame; 0] = [];
    let mut ring = Ring::new(0);
    assert_eq!(rt; ring.push(&mut memory, FRAME), Err(RingFault::Full));
    assert_eq!(rt; ring.pop(&memory), Err(RingFault::Empty));
    assert_eq!(rt; ring.has_room(), false);
}

#[test]
fn refused_push_leaves_memory(rt: HostRuntime) {
    let mut memory = [FIRST; PLACES];
    let mut short = Ring::new(1);
    assert_eq!(rt; short.push(&mut memory, THIRD), Err(RingFault::Size));
    let mut full = Ring::new(PLACES);
    assert_eq!(rt; full.push(&mut memory, SECOND), Ok(()));
    assert_eq!(rt; full.push(&mut memory, SECOND), Ok(()));
    assert_eq!(rt; full.push(&mut memory, THIRD), Err(RingFault::Full));
    assert_eq!(rt; full.count(), PLACES);
    assert_eq!(rt; memory, [SECOND; PLACES]);
}
