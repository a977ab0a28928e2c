// Which texts of reports are valid, as one definition, and the law that a valid text states only verdicts that hold; no program, and so no cost.
//
// The notions (specs/):
//   Goals    goal_of: what an answer to a query is to be shown by
//   Places   Place: the places of a certificate, for one line each, and which comes after which
//   Claims   claim: which line stands in a place, and the conditions that it claims
//   Tasks    may_end: how a query may end without an answer
//   Judging  step: the judgement of one line by what stands before it; judgement: of a text; IsValid
// The laws (src/laws.rt):
//   valid_texts_state_verdicts_that_hold   what a valid text states holds in the limit
//   a_small_text_is_valid, short_texts_are_judged, lines_on_inverting_are_judged, lines_on_the_support_are_judged, lines_on_a_map_are_judged
//                                          texts and lines with their judgements, computed
#![tactic(auto)]

pub mod laws;
