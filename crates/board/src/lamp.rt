// What a decided board has its lamp do.
ghost use Rattle.std.specs.Prelude.{◌≡◌};
ghost use Rattle.board.specs.Lamps.{order_of};

use vote::{Decision, Depth};

#[derive(Clone, Copy, PartialEq, Eq, Debug)]
pub enum Order {
    // show the character
    Show(u8),
    // load the character and hold it
    Load(u8),
    // stay as it is
    Stay,
}

// The order that a decision gives at a depth.
pub fn lamp_order(depth: Depth, decision: Decision) -> Order
    ensures { result ≡ order_of depth decision }
{
    let Decision { value, grade } = decision;
    match (depth, value, grade) {
        (_, 0, _) => Order::Stay,
        (Depth::One, _, _) | (Depth::Two, _, 2) => Order::Show(value),
        (Depth::Two, _, _) => Order::Load(value),
    }
}
