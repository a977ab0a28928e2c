// Parts of certificates with their shapes and values, logs of completions replayed entry by entry, and the conditions of the lines of
// certificates, as definitions with their laws; no program, and so no cost.
//
// The notions (specs/):
//   Shapes      shape_of, fits, depth_of: the shape of a part, whether its operands fit, and how deep it is
//   Values      value_of: the matrix that a part means, where it is formed within the bound on exponents; same_matrix
//   Replays     Reason; replay_entry: one entry of a log, a free step or why it is none; is_whole: the log is complete
//   Conditions  Condition; shapes_fit, holds: what a line claims of parts and logs, as a test with its reasons in their order
//   Sound       IsSoundLog: the members of a log are a Gröbner basis of the graph of the value of its part
//   Meanings    Says: what a condition says of the matrices that its parts mean
//   Examples    a small log
// The laws (src/laws.rt):
//   parts_have_their_shapes         the value of a part that fits has the part's shape
//   whole_logs_complete_graphs      the members of a log that was replayed without a fault and is whole are such a basis
//   conditions_that_hold_are_true   what conditions say is true, where they are judged well and their logs are sound
//   a_small_log_is_replayed         a log with its last pair formed or skipped, and entries that are no free steps
#![tactic(auto)]

pub mod laws;
