// What is printed of the end of a plan, and that it states only what holds; no program, and so no cost.
//
// The notions (specs/):
//   Printed  polynomials and matrices as they are printed; the lines that name the matrices of a resolution, of Ext and of a chain
//   Answers  what a query asks of its plan; the report of a query, a row for each kind, and of a problem
// The laws (src/laws.rt):
//   a_printed_polynomial_has_its_terms          the terms that are printed mean the polynomial, and are those that a program keeps
//   printed_matrices_are_read_back              the same for matrices, which can be written within the bound on exponents
//   a_report_of_a_plan_states_what_holds        the report of a query can be written, and what it states holds, for all nine kinds
//   reports_of_texts_state_verdicts_that_hold   so do the report of a problem text and each beginning of it
#![tactic(auto)]

pub mod laws;
