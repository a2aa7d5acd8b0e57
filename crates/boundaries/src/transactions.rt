use byte_home::ByteHome;
use coordinator::{Entry, Place, begin, decide, freeze, open_tables, read, renew, settle, write};
use home::Home;
use kinds::Node;
use std::test::Fail;

#[test]
fn a_transaction_over_nodes(rt: HostRuntime) -> Result<(), Fail> {
    // Two rows: day 1 with rate 0, lease 0 to 0, nobody.
    let mut bytes = [0u8; 34];
    bytes[3] = 1;
    bytes[20] = 1;
    let mut home = ByteHome::<Node>::make(&mut bytes);
    let free = Place {
        state: 0,
        ts: 0,
        used: 0,
        cursor: 0,
    };
    let blank = Entry {
        key: 0,
        wts: 0,
        rts: 0,
        value: Node::new(1, 0).ok_or("day 1")?,
        written: false,
    };
    let mut places = vec![in rt.alloc(); free; 64]?;
    let mut entries = vec![in rt.alloc(); blank; 1_024]?;
    let mut counter = 9;
    open_tables(&home, &mut places, &entries, &mut counter)?;
    begin(&mut places, &entries, 1)?;
    let node = read(&home, &mut places, &mut entries, 1, 0)?;
    let moved = node.with_rate(7);
    let ts = write(&mut home, &mut places, &mut entries, 1, 0, moved)?;
    assert_eq!(rt; ts, 1);
    assert_eq!(rt; freeze(&mut places, &entries, 1)?, 1);
    assert_eq!(rt; renew(&mut home, &mut places, &mut entries, 1)?, 0);
    assert_eq!(rt; decide(&mut places, &entries, &mut counter, 1)?, (1, 1));
    assert_eq!(rt; settle(&mut home, &mut places, &entries, 1)?, (0, false));
    assert_eq!(rt; settle(&mut home, &mut places, &entries, 1)?, (0, true));
    assert_eq!(rt; home.look(0)?.value.rate(), 7);
    assert_eq!(rt; home.look(1)?.value.rate(), 0);
    Ok(())
}
