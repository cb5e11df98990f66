// What the calls of calendar and clock answer: the parameters read, refusals in document 01's order, and the layer
// below asked. There is one function for each call of C, named as it.
#![tactic(auto)]

pub mod kalender;
pub mod theorems;
pub mod uhrzeit;
