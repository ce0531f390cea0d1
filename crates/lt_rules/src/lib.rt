//! Transfer rules, and which of them may be chosen for a constant.
#![tactic(auto)]

mod fitting;
mod rule;
mod rule_base;
mod rule_index;
mod rule_list;
mod rule_read_fault;
mod shared_rule;

pub use fitting::fits;
pub use rule::TransferRule;
pub use rule_base::RuleBase;
pub use rule_list::RuleList;
pub use rule_read_fault::RuleReadFault;
