// The cases as one table, a theorem about the definitions; and calls of every theorem's function, so that none can be
// deleted alone. None of them does anything.

ghost use Rattle.faelle.specs.Cases.{CasesAToL};

/// Theorem: the cases A to L, by the definitions that the host calls are proved to compute, come to what they must.
pub fn cases_a_to_l()
    ensures table { CasesAToL }
{}

/// Calls each function whose promise is a theorem.
pub fn call_all() {
    zaehlung::theorems::steps();
    zaehlung::theorems::first_open_day();
    zaehlung::theorems::day_after_open_days();
    zaehlung::theorems::counts();
    datum::theorems::date_and_index();
    datum::theorems::month_shifts();
    datum::theorems::month_or_first_of_next();
    datum::theorems::outside_values();
    werktag::theorems::open_day();
    werktag::theorems::closed_day();
    werktag::theorems::easter_day();
    werktag::theorems::feasts_by_distance();
    werktag::theorems::outside_values();
    jahresindex::theorems::year_index();
    schritte::theorems::days_tested();
    schritte::theorems::outside_values();
    portfolio::theorems::runs();
    berlin::theorems::summer_time();
    berlin::theorems::local_time();
    berlin::theorems::days_tile();
    berlin::theorems::comparisons();
    berlin::theorems::parts_decide();
    berlin::theorems::tagesbeginn();
    berlin::theorems::outside_values();
    fristen::theorems::werktag_clocks();
    fristen::theorems::never_absent();
    fristen::theorems::window();
    fristen::theorems::formatumstellung();
    fristen::theorems::change_day();
    fristen::theorems::versions_agree();
    fristen::theorems::outside_values();
    spannen::span_is_exact();
    spannen::named_date();
    spannen::span_is_sharp();
    spannen::late_verdict();
    spannen::months_before();
    spannen::verdict_margin();
    zahlen::theorems::written_is_read_back();
    zahlen::theorems::read_is_written_back();
    zahlen::theorems::signed_and_bits();
    antwortsatz::theorems::answer_bytes();
    antwortsatz::theorems::numbered_answers();
    antwortsatz::theorems::fields_are_read_back();
    antwortsatz::theorems::dates_and_margins();
    fragesatz::theorems::question_and_bytes();
    fragesatz::theorems::file_lengths();
    antworten::theorems::codes::<u8>();
    antworten_frist::theorems::calls_agree();
    antworten_frage::theorems::answered_as_call();
    antworten_frage::theorems::answers_in_order();
    antworten_frage::theorems::clock_in_seconds();
    antworten_frage::theorems::outside_values();
    antworten_portfolio::theorems::single_count();
    antworten_portfolio::theorems::outside_values();
    cases_a_to_l();
}
