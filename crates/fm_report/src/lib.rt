// What the bytes of a report state, when that holds, and what a report says. It has no program: definitions stand in specs/, and each law is a
// function of `laws` with an empty body.
//
// The notions (specs/):
//   Parts     matrices that are printed or made of others, and what they mean (`part_value`)
//   Sheets    what the lines have said so far (`Sheet`), and what one more line adds (`say`)
//   Verdicts  what is stated (`Stated`), and the verdict of an answered query (`verdict_of`), a row for each kind of query
//   Reading   what bytes state (`statements`)
//   Holding   when that holds (`IsHeld`, `VerdictsHold`)
//   Choices   that it holds for every choice of resolutions and lifts (`HoldsForEveryChoice`)
//   Answered  how many answers of a text are ended, by its first words alone
//   Reports   reports as they are written (`report_text`), and what they say (`report_says`)
//   Examples  the pieces of short reports
//
// The laws (laws/reports.rt and laws/examples.rt):
//   a_written_report_states_what_it_says   a written report states what its queries say, in order
//   reports_of_queries_that_hold_hold      if that holds, so does all that the report and each beginning of it states
//   a_beginning_states_a_beginning, verdicts_hold_in_a_beginning   a text that is cut states no more
//   a_message_states_nothing               a line on which no verdict rests states nothing
//   each_answer_is_stated                  at least as many things are stated as answers are ended
//   each_verdict_holds                     where all holds, each thing holds
//   verdicts_hold_for_every_choice         what holds along the printed matrices holds along all others
//   a_short_report_of_each_kind, a_stable_block_states_its_root, broken_lines_state_what_never_holds   by computation
#![tactic(auto)]

pub mod laws;
