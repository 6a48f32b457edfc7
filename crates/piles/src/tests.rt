// Piles of layers, tried.
use crate::named::Named;
use crate::ticks::Ticks;
use items::cause::{Cause, End, Fault, Refusal};
use items::feed::Feed;
use items::item::{Item, Mark, Row};
use items::source::Source;
use layers::cover::Cover;
use layers::{Port, Queue};
use sources::reader::LogReader;
use std::test::Fail;

fn mark(time: u64) -> Result<Item, Cause> {
    Mark::new(time).map(Item::Marked)
}

// The time of the next item, or the end.
fn next<S: Source>(source: &mut S) -> Result<u64, End> {
    let mut place = Item::Marked(Mark { time: 0 });
    source.take(&mut place)?;
    Ok(place.time())
}

// What a pile, handed on by value, answers after so many items.
fn last<S: Source + Drop>(mut pile: S, items: u8) -> Result<u64, End> {
    for _ in 0..items {
        next(&mut pile)?;
    }
    next(&mut pile)
}

#[test]
fn the_33rd_put_is_refused(rt: HostRuntime) -> Result<(), Fail> {
    let mut port = Port::new();
    for time in 0..32u64 {
        assert_eq!(rt; port.put(mark(time)?), Ok(()));
    }
    assert_eq!(rt; port.room(), 0);
    assert_eq!(rt; port.put(mark(32)?), Err(Refusal::Full));
    assert_eq!(rt; Refusal::Full.number(), 21);
    assert_eq!(rt; next(&mut port), Ok(0));
    assert_eq!(rt; port.room(), 1);
    assert_eq!(rt; port.put(mark(32)?), Ok(()));
    assert_eq!(rt; next(&mut port), Ok(1));
    Ok(())
}

#[test]
fn queues_over_a_port(rt: HostRuntime) -> Result<(), Fail> {
    let mut pile = Queue::new(Queue::new(Port::new()));
    for time in 1..6u64 {
        assert_eq!(rt; pile.put(mark(time)?), Ok(()));
    }
    assert_eq!(rt; pile.fill_queue(1, 3), Some(3));
    assert_eq!(rt; pile.room(), 30);
    assert_eq!(rt; pile.fill(2), 2);
    assert_eq!(rt; next(&mut pile), Ok(1));
    assert_eq!(rt; pile.put(mark(6)?), Ok(()));
    assert_eq!(rt; pile.fill_queue(0, 9), Some(4));
    assert_eq!(rt; pile.fill_queue(1, 9), Some(0));
    assert_eq!(rt; pile.fill_queue(2, 9), None);
    assert_eq!(rt; pile.room(), 32);
    for time in 2..7u64 {
        assert_eq!(rt; next(&mut pile), Ok(time));
    }
    assert_eq!(rt; next(&mut pile), Err(End::Dry));
    Ok(())
}

// A reading of inputs 0 and 1 at 5, one of input 1 at 6, and a field that is cut short.
const LOG: [u8; 37] = [
    16, 17, 0, 5, 0, 0, 0, 0, 0, 0, 0, 3, 7, 0, 0, 0, 9, 0, 0, 0, 16, 13, 0, 6, 0, 0, 0, 0, 0, 0,
    0, 2, 1, 0, 0, 0, 17,
];

#[test]
fn a_cover_between_queues_over_a_log(rt: HostRuntime) -> Result<(), Fail> {
    let mut pile = Queue::new(Cover::new(Queue::new(LogReader::new(&LOG)), 1));
    assert_eq!(rt; pile.fill_queue(1, 1), Some(1));
    assert_eq!(rt; pile.fill_queue(0, 9), Some(2));
    let mut place = Item::Marked(Mark { time: 0 });
    pile.take(&mut place)?;
    assert_eq!(rt; place.row(), Row::Read(5, 1, [7, 0, 0, 0, 0, 0, 0, 0]));
    pile.take(&mut place)?;
    assert_eq!(rt; place.row(), Row::Marked(6));
    let fault = Fault {
        cause: Cause::Cut,
        place: 36,
        distance: 3,
    };
    assert_eq!(rt; pile.take(&mut place), Err(End::Broken(fault)));
    assert_eq!(rt; fault.cause.number(), 11);
    Ok(())
}

#[test]
fn a_name_between_layers_over_a_log(rt: HostRuntime) -> Result<(), Fail> {
    let named = Named::new(Queue::new(LogReader::new(&LOG)), b"a name of 18 bytes");
    assert_eq!(rt; named.name(), b"a name of 18 byt".as_slice());
    let mut pile = Queue::new(Cover::new(named, 1));
    assert_eq!(rt; pile.fill_queue(1, 1), Some(1));
    assert_eq!(rt; pile.fill_queue(0, 9), Some(2));
    assert_eq!(rt; next(&mut pile), Ok(5));
    let fault = Fault {
        cause: Cause::Cut,
        place: 36,
        distance: 4,
    };
    assert_eq!(rt; last(pile, 1), Err(End::Broken(fault)));
    Ok(())
}

#[test]
fn layers_over_ticks(rt: HostRuntime) {
    let mut pile = Cover::new(Queue::new(Ticks::new(10, 70)), 1);
    assert_eq!(rt; pile.fill_queue(0, 100), Some(64));
    for time in 10..80u64 {
        assert_eq!(rt; next(&mut pile), Ok(time));
    }
    assert_eq!(rt; next(&mut pile), Err(End::Dry));
}
