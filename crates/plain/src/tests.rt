// What a caller does with a table.
use crate::PlainTable;
use routes::{Answer, Piece};

// A table is cloned with its routes.
#[test]
fn clones_its_routes(rt: HostRuntime) {
    let mut table = PlainTable::new();
    let piece = Piece {
        puts: true,
        len: 8,
        bits: 0x0a00_0000,
        tells: 17,
    };
    assert!(rt; table.change(&[piece]).is_ok(), "one route is put in");
    let Ok(copy) = table.clone() else {
        panic!(rt; "a clone asks for no memory")
    };
    assert!(rt;
        matches!(copy.find(0x0a01_0203), Answer::Found(8, 17)),
        "it is found in the clone"
    );
}
