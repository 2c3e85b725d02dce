// How far a plain board has come.
use vote::Decision;

#[derive(Clone, Copy)]
pub enum Stage {
    // The senders of kind 1 are not ample yet.
    Gathering,
    // The branch is fixed, and there is no decision yet: at depth 2 the senders of kind 2 are waited for.
    Comparing(u8),
    // The branch and the decision, which nothing changes.
    Decided(u8, Decision),
}
