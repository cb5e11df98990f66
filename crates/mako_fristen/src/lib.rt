// The host calls: test the answer's length, read the numbers, ask for the answer, write its 32 bytes.
//
// Each call's promise is one equation: the number that it returns and the slices as it leaves them are what a
// definition gives, which stands in specs/ of `antworten`, `antworten_frist`, `antworten_vorlauf`, `antworten_frage` or
// `antworten_portfolio`. Refusal 1 is found first, before instants and clocks are read: a host that lends a wrong
// length should not pay for an answer. Every other is decided in the answer, but 9, which is a file's. There is one
// function for each call of C, named as it: dates, clocks and instants come as numbers there, and are made here.
#![tactic(auto)]

mod fragen;
mod frist;
mod kalender;
mod portfolios;
mod uhrzeit;
mod vorlaeufe;

pub use fragen::mf_questions;
pub use frist::{
    mf_add_hours, mf_aperak_gas_due_at, mf_aperak_gas_folgeprozess_due_at,
    mf_aperak_gas_initialprozess_due_at, mf_aperak_strom_allgemein_due_at, mf_aperak_strom_due_at,
    mf_contrl_due_at, mf_contrl_due_at_change, mf_deadline_at_werktage, mf_end_of_werktag_after,
    mf_frist_due_at, mf_next_werktag_at, mf_nth_werktag_at,
};
pub use kalender::{
    mf_add_months, mf_add_werktage, mf_is_werktag, mf_next_werktag, mf_sub_werktage,
    mf_subtract_months, mf_werktage_between,
};
pub use portfolios::mf_portfolio;
pub use uhrzeit::{
    mf_berlin_at, mf_berlin_date, mf_berlin_midnight, mf_end_of_day_berlin, mf_tag_des_beginns,
    mf_tagesbeginn_utc,
};
pub use vorlaeufe::{
    mf_abmeldung_check, mf_abmeldung_fuer, mf_eog_ankuendigung_fristgerecht, mf_vorlauf_check,
    mf_vorlauf_check_at, mf_vorlauf_span,
};
