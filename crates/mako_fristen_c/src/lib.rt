// The host calls for C and every other language: each export is the call of `mako_fristen` by the same name, with the
// same promise. A library that Rattle crates use cannot be a static library too.
#![tactic(auto)]

mod fragen;
mod frist;
mod kalender;
mod portfolios;
mod uhrzeit;
mod vorlaeufe;
