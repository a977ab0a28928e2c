// The certificate of what a plan finds, and that it states only what holds; no program, and so no cost.
//
// The notions (specs/):
//   Certificates  the lines of the certificate of each kind of query, with the parts and the logs that they name
//   Reports       the report of a query with the certificate of its answer, and the report of a problem
// The laws (src/laws.rt):
//   a_certificate_of_a_plan_states_what_holds  the report of a query can be written, and what it states holds, for all nine kinds
//   certified_reports_of_texts_state_verdicts_that_hold  so does the report of a problem that is read
#![tactic(auto)]

pub mod laws;
