//! Which save sets depend on which: what is needed and what can be purged, which volume may be
//! labelled anew, and the chain of bases that a set is restored from.
//! docs/definitions.md says what the words of the contracts mean.
#![tactic(auto)]

mod bases;
mod chains;
mod labelling;
mod laws;
mod marks;
mod need;
mod open_set;
mod purging;
mod states;

pub use chains::{ChainFault, chain};
pub use labelling::may_label;
pub use laws::{
    chain_is_what_it_depends_on, dependence_goes_down, need_is_passed_down, one_chain_or_one_fault,
    purgeable_from_above,
};
pub use need::{needed, user_of};
pub use open_set::OpenSet;
pub use purging::{purgeable, purgeable_sets};
