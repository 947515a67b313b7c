use step_orders::additions::*;
use step_orders::laws::like_orders;

#[test]
fn orders_by_hand(rt: HostRuntime) {
    let start = Store {
        first: 1,
        second: 2,
        third: 4,
    };
    let x = Addition {
        into: Cell::First,
        from: Cell::Third,
    };
    let y = Addition {
        into: Cell::First,
        from: Cell::Second,
    };
    let z = Addition {
        into: Cell::Third,
        from: Cell::First,
    };
    let end = Store {
        first: 7,
        second: 2,
        third: 11,
    };
    assert_eq!(rt; run(&[x, y, z], start), end);
    assert_eq!(rt; run(&[y, x, z], start), end, "x and y are free of conflict");
    let other = Store {
        first: 8,
        second: 2,
        third: 5,
    };
    assert_eq!(rt; run(&[z, x, y], start), other, "z reads what x changes");
    additions_are_steps();
    like_orders::<Addition, Cell, u64>();
}
