// The calls in C (`c`), which bohrali_c exports. Each function's contract is one equation for the number and, where bytes are lent, one for what
// they hold afterwards, for all inputs. C's one signed number is made of Admit's counts (`counts`), of what a call has written (`written`), of the
// answers of those calls that have a form with a size (`sized`), and of what Witnessed answers (`witnessed`).
#![tactic(auto)]

pub mod c;
pub mod counts;
pub mod sized;
pub mod witnessed;
pub mod written;
