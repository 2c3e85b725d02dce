// One board: fitted with its settings, then started once, then taking frames.
// How it votes is told in the crates below; which boards there are, and how words travel between them, is left to the crates above.

#![tactic(auto)]

mod answer;
mod fault;
mod fit;
mod fitted;
mod fitting;
mod lamp;
mod record;
mod settings;
mod started;
mod step;
mod taking;

pub use answer::Taken;
pub use fault::BoardFault;
pub use fit::{Fit, Fitting};
pub use fitted::Fitted;
pub use lamp::{Order, lamp_order};
pub use record::Record;
pub use settings::{Settings, kept_address, kept_vote, settings_fault};
pub use started::Started;
