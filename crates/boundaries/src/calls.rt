use crate::helpers::{fault, number, row};
use byte_home::ByteHome;
use home::Home;
use kinds::Price;
use row_home::RowHome;
use split_home::SplitHome;
use std::test::Fail;

#[test]
fn places(rt: HostRuntime) {
    let mut rows = [row(0, 0), row(0, 0)];
    let mut home = RowHome::make(&mut rows, 10);
    assert_eq!(rt; number(home.hold(0, 0)), 4);
    assert_eq!(rt; number(home.hold(0, 65)), 4);
    assert_eq!(rt; number(home.hold(9, 65)), 4);
    assert_eq!(rt; number(home.hold(0, 1)), 0);
    assert_eq!(rt; number(home.hold(1, 64)), 0);
}

#[test]
fn keys(rt: HostRuntime) {
    let mut rows = [row(0, 0)];
    let mut home = RowHome::make(&mut rows, 10);
    assert_eq!(rt; number(home.look(0)), 0);
    assert_eq!(rt; number(home.look(1)), 1);
    assert_eq!(rt; number(home.renew(1, 0, 20, 30)), 1);
}

#[test]
fn the_last_timestamp(rt: HostRuntime) {
    let mut rows = [row(4, 9), row(4, 10)];
    let mut home = RowHome::make(&mut rows, 10);
    assert_eq!(rt; number(home.hold(0, 1)), 0);
    assert_eq!(rt; number(home.hold(1, 1)), 3);
    assert_eq!(rt; number(home.put(0, 1, Price { ticks: 7 }, 11)), 3);
    assert_eq!(rt; number(home.put(0, 1, Price { ticks: 7 }, 9)), 7);
    assert_eq!(rt; number(home.put(0, 2, Price { ticks: 7 }, 10)), 6);
    assert_eq!(rt; number(home.put(0, 1, Price { ticks: 7 }, 10)), 0);
    assert_eq!(rt; number(home.renew(0, 10, 10, 11)), 3);
    assert_eq!(rt; number(home.renew(0, 10, 10, 10)), 0);
}

#[test]
fn renewals(rt: HostRuntime) -> Result<(), Fail> {
    let mut rows = [row(3, 5)];
    let mut home = RowHome::make(&mut rows, 100);
    assert_eq!(rt; home.renew(0, 3, 5, 50)?, 5);
    assert_eq!(rt; home.renew(0, 3, 6, 50)?, 50);
    assert_eq!(rt; number(home.renew(0, 3, 51, 50)), 3);
    assert_eq!(rt; number(home.renew(0, 4, 51, 52)), 5);
    assert_eq!(rt; number(home.hold(0, 64)), 0);
    assert_eq!(rt; number(home.renew(0, 4, 51, 52)), 5);
    assert_eq!(rt; number(home.renew(0, 3, 51, 52)), 2);
    assert_eq!(rt; number(home.free(0, 63)), 6);
    assert_eq!(rt; number(home.free(0, 64)), 0);
    assert_eq!(rt; number(home.free(0, 64)), 6);
    Ok(())
}

#[test]
fn faults_of_a_split(rt: HostRuntime) {
    let mut near = [row(0, 0), row(7, 10)];
    let mut far = [row(3, 5)];
    let mut left = RowHome::make(&mut near, 10);
    let mut right = RowHome::make(&mut far, 10);
    let mut home = SplitHome::make(&mut left, &mut right);
    assert_eq!(rt; fault(home.hold(1, 2)), (3, 2, 1, 0));
    assert_eq!(rt; fault(home.hold(2, 64)), (0, 0, 0, 0));
    assert_eq!(rt; fault(home.hold(2, 9)), (2, 9, 2, 64));
    assert_eq!(rt; fault(home.renew(2, 4, 5, 6)), (5, 0, 2, 3));
    assert_eq!(rt; fault(home.put(2, 9, Price { ticks: 1 }, 8)), (6, 9, 2, 0));
    assert_eq!(rt; fault(home.look(3)), (1, 0, 3, 0));
    assert_eq!(rt; fault(home.free(3, 70)), (4, 70, 3, 0));
}

#[test]
fn a_split_of_a_split(rt: HostRuntime) -> Result<(), Fail> {
    let mut near = [row(0, 0), row(7, 10)];
    let mut middle = [row(3, 5)];
    let mut far = [0u8; 17];
    let mut first = RowHome::make(&mut near, 4_294_967_295);
    let mut second = RowHome::make(&mut middle, 4_294_967_295);
    let mut third = ByteHome::<Price>::make(&mut far);
    let mut left = SplitHome::make(&mut first, &mut second);
    let mut home = SplitHome::make(&mut left, &mut third);
    assert_eq!(rt; home.count(), 4);
    assert_eq!(rt; home.renew(2, 3, 6, 50)?, 50);
    assert_eq!(rt; fault(home.hold(3, 64)), (0, 0, 0, 0));
    assert_eq!(rt; fault(home.hold(3, 9)), (2, 9, 3, 64));
    assert_eq!(rt; fault(home.look(4)), (1, 0, 4, 0));
    Ok(())
}

#[test]
fn a_byte_home(rt: HostRuntime) -> Result<(), Fail> {
    let mut bytes = [0u8; 34];
    let mut home = ByteHome::<Price>::make(&mut bytes);
    assert_eq!(rt; number(home.hold(1, 64)), 0);
    assert_eq!(rt;
        number(home.put(1, 64, Price { ticks: -2 }, 4_294_967_295)),
        0
    );
    let row = home.look(1)?;
    assert_eq!(rt; row.value.ticks, -2);
    assert_eq!(rt; row.rts, 4_294_967_295);
    assert_eq!(rt; number(home.hold(1, 1)), 3);
    assert_eq!(rt; number(home.look(2)), 1);
    Ok(())
}
