// The words that a plain board newly posts.
ghost use Rattle.std.specs.Prelude.{◌≡◌, ◌≤◌};
ghost use Rattle.plain_board.specs.Limits.{max_value};
ghost use Rattle.plain_board.specs.Step.{branch_news};

use vote::{Depth, News};

// A branch that is just fixed: at depth 2 the others compare theirs with it, at depth 1 nobody asks for it.
pub(crate) fn on_branch(depth: Depth, branch: u8) -> News
    requires { branch ≤ max_value }
    ensures { result ≡ branch_news depth branch }
{
    match depth {
        Depth::One => News::none(),
        Depth::Two => News::one(2, branch),
    }
}
