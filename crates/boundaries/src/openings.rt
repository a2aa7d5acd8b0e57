use crate::helpers::{fresh, parts};
use byte_home::ByteHome;
use home::{Home, Row};
use kinds::{Node, Price};
use row_home::RowHome;
use split_home::SplitHome;
use std::test::Fail;

#[test]
fn row_counts(rt: HostRuntime) -> Result<(), Fail> {
    let none: [Row<Price>; 0] = [];
    assert_eq!(rt; parts(RowHome::check(&none, 10)), (16, 0, 0));
    assert_eq!(rt; parts(RowHome::check(&[fresh()], 10)), (0, 0, 0));
    let mut rows = vec![in rt.alloc(); fresh(); 65_535]?;
    assert_eq!(rt; parts(RowHome::check(&rows, 10)), (0, 0, 0));
    rows.push(fresh())?;
    assert_eq!(rt; parts(RowHome::check(&rows, 10)), (16, 0, 0));
    Ok(())
}

#[test]
fn row_lasts(rt: HostRuntime) {
    let rows = [fresh()];
    assert_eq!(rt; parts(RowHome::check(&rows, 0)), (0, 0, 0));
    assert_eq!(rt;
        parts(RowHome::check(&rows, 9_223_372_036_854_775_807)),
        (0, 0, 0)
    );
    assert_eq!(rt;
        parts(RowHome::check(&rows, 9_223_372_036_854_775_808)),
        (16, 0, 0)
    );
}

#[test]
fn the_first_bad_row(rt: HostRuntime) {
    let mut rows = [fresh(), fresh(), fresh(), fresh()];
    rows[0].rts = 10;
    rows[1].holder = 64;
    assert_eq!(rt; parts(RowHome::check(&rows, 10)), (0, 0, 0));
    rows[3].rts = 11;
    assert_eq!(rt; parts(RowHome::check(&rows, 10)), (17, 3, 1));
    rows[2].holder = 65;
    assert_eq!(rt; parts(RowHome::check(&rows, 10)), (17, 2, 2));
    rows[2].wts = 1;
    assert_eq!(rt; parts(RowHome::check(&rows, 10)), (17, 2, 1));
    let home = RowHome::make(&mut rows, 10);
    assert_eq!(rt; home.count(), 0);
    assert_eq!(rt; home.last(), 0);
}

#[test]
fn byte_counts(rt: HostRuntime) -> Result<(), Fail> {
    let mut bytes = vec![in rt.alloc(); 0u8; 16]?;
    assert_eq!(rt; parts(ByteHome::<Price>::check(&[])), (16, 0, 0));
    assert_eq!(rt; parts(ByteHome::<Price>::check(&bytes)), (16, 0, 0));
    bytes.push(0)?;
    assert_eq!(rt; parts(ByteHome::<Price>::check(&bytes)), (0, 0, 0));
    bytes.push(0)?;
    assert_eq!(rt; parts(ByteHome::<Price>::check(&bytes)), (16, 0, 0));
    let mut most = vec![in rt.alloc(); 0u8; 1_114_095]?;
    assert_eq!(rt; parts(ByteHome::<Price>::check(&most)), (0, 0, 0));
    most.extend_from_slice(&[0; 17])?;
    assert_eq!(rt; parts(ByteHome::<Price>::check(&most)), (16, 0, 0));
    Ok(())
}

#[test]
fn the_first_bad_bytes(rt: HostRuntime) {
    // Two rows: day 1 with rate 0, lease 0 to 0, nobody; then the same, spoilt from the last byte on.
    let mut bytes = [0u8; 34];
    bytes[3] = 1;
    assert_eq!(rt; parts(ByteHome::<Node>::check(&bytes)), (17, 1, 3));
    bytes[33] = 65;
    assert_eq!(rt; parts(ByteHome::<Node>::check(&bytes)), (17, 1, 2));
    bytes[28] = 1;
    assert_eq!(rt; parts(ByteHome::<Node>::check(&bytes)), (17, 1, 1));
    bytes[3] = 0;
    assert_eq!(rt; parts(ByteHome::<Node>::check(&bytes)), (17, 0, 3));
    let home = ByteHome::<Node>::make(&mut bytes);
    assert_eq!(rt; home.count(), 0);
    assert_eq!(rt; home.last(), 4_294_967_295);
}

#[test]
fn split_counts(rt: HostRuntime) -> Result<(), Fail> {
    let mut near = vec![in rt.alloc(); fresh(); 65_534]?;
    let mut one = [fresh()];
    let mut two = [fresh(), fresh()];
    let left = RowHome::make(&mut near, 10);
    assert_eq!(rt;
        parts(SplitHome::check(&left, &RowHome::make(&mut one, 10))),
        (0, 0, 0)
    );
    assert_eq!(rt;
        parts(SplitHome::check(&left, &RowHome::make(&mut two, 10))),
        (16, 0, 0)
    );
    Ok(())
}

#[test]
fn split_lasts(rt: HostRuntime) {
    let mut near = [fresh()];
    let mut far = [fresh()];
    let mut none: [Row<Price>; 0] = [];
    let left = RowHome::make(&mut near, 10);
    assert_eq!(rt;
        parts(SplitHome::check(&left, &RowHome::make(&mut far, 11))),
        (19, 0, 0)
    );
    // A home without keys has the last timestamp 0.
    assert_eq!(rt;
        parts(SplitHome::check(&left, &RowHome::make(&mut none, 10))),
        (19, 0, 0)
    );
}
