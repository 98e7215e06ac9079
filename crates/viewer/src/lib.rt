// What `show_view` is made of: calls of `lent`, each on a record of its own, by value, which hand back what is left of it; blocks that can
// be told apart; and a line for each view.
#![tactic(auto)]

mod marks;
mod printing;
mod records;
mod viewed;

pub use marks::{mark, write_marks};
pub use printing::{print_case, print_scratch, print_view};
pub use records::{begun, formatted, grown, moved, rebuilt, without};
pub use viewed::view;
