// Deciding: what each call is refused for, by the table of documents 01 and 02. Beside it what the crates of the calls share: what health
// means for a disk, where places lie, how much of what is left a call does, and the answers (specs/Answers.antt says what they are in
// document 01's numbers and values).
#![tactic(auto)]

mod answers;
mod budget;
mod health;
mod places;
mod refusal;
mod types;

pub use answers::{made_in, number_of};
pub use budget::due;
pub use health::{after_out, is_absent, rebuilt_to};
pub use places::{place_at, sum_others};
pub use refusal::{
    disks_of, of_advance, of_begin, of_continue, of_format, of_grow, of_lent, of_locate, of_out,
    of_owner, of_reach, of_status, of_sweep,
};
pub use types::{Figures, Progress, Refusal, Swept};
