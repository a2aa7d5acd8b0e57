use kinds::{Kind, Node, Price};
use std::test::Fail;

#[test]
fn codes(rt: HostRuntime) {
    assert_eq!(rt; Price::kind_code(), 1);
    assert_eq!(rt; Node::kind_code(), 2);
}

#[test]
fn node_words(rt: HostRuntime) -> Result<(), Fail> {
    let first = Node::new(1, -1).ok_or("day 1")?;
    assert_eq!(rt; first.pack(), 8_589_934_591);
    let last = Node::new(65_536, 0).ok_or("day 65,536")?;
    assert_eq!(rt; last.pack(), 281_474_976_710_656);
    assert!(rt; Node::new(0, 0).is_none());
    assert!(rt; Node::new(65_537, 0).is_none());
    Ok(())
}

#[test]
fn words_of_no_node(rt: HostRuntime) {
    assert!(rt; Node::unpack(4_294_967_295).is_none());
    assert!(rt; Node::unpack(4_294_967_296).is_some());
    assert!(rt; Node::unpack(281_479_271_677_951).is_some());
    assert!(rt; Node::unpack(281_479_271_677_952).is_none());
}

#[test]
fn price_words(rt: HostRuntime) -> Result<(), Fail> {
    assert_eq!(rt; Price { ticks: -1 }.pack(), 18_446_744_073_709_551_615);
    let least = Price::unpack(9_223_372_036_854_775_808).ok_or("every word is a price")?;
    assert_eq!(rt; least.ticks, -9_223_372_036_854_775_808);
    Ok(())
}
