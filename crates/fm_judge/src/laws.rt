// The laws of valid texts.
ghost use Rattle.std.specs.Prelude.{Err, None, Ok, Some, [], codes, ◌∷◌, ◌≡◌};
ghost use Rattle.fm_words.specs.Parts.{Bytes};
ghost use Rattle.fm_report.specs.Holding.{VerdictsHold};
ghost use Rattle.fm_parts.specs.Replays.{Exponents, Form, Reference, Shape, Truncated, Value};
ghost use Rattle.fm_report.specs.Sheets.{new_block};
ghost use Rattle.fm_judge.specs.Places.{annihilator, colon, datum_beyond, differential, fibre, lambda, least, link, never_onto, nonnull, notone, null, onto, open_link, phi, power, proper_colon, short};
ghost use Rattle.fm_judge.specs.Examples.{block_with, no_rows, on_inverting, on_source, on_support, on_target, small_generator, small_row, small_text};
ghost use Rattle.fm_judge.specs.Judging.{Counts, at_done, judgement, step};

/// All that the bytes of a valid text state holds: each verdict, and the matrices on which it rests are what they are said to be.
pub fn valid_texts_state_verdicts_that_hold()
    ensures { (text : Bytes) (counts : Counts) → judgement text ≡ Ok counts → VerdictsHold text }
{}

/// A report on a resolution of degree 0 is valid: its certificate names the row of generators.
pub fn a_small_text_is_valid()
    ensures { judgement small_text ≡ Ok (record { verdicts = 1; passed = 0 }) }
{}

/// Short texts and their judgements: queries without an answer, with and without an LF at the end, and edits of the small text with their first bad line
/// and its reason.
pub fn short_texts_are_judged()
    ensures passed { judgement (codes "report 2\nring 2 x\norder grevlex\nideal I = x\nquery 1 zero 1 I\nunanswered budget chain 7\ndone 1\nend report") ≡ Ok (record { verdicts = 0; passed = 1 }) }
    ensures refused { judgement (codes "report 1\nring 2 x\norder lex\nideal I = x\nquery 1 class 1 I 0 (x)\nrefused not a cocycle component 1\ndone 1\nend report\n") ≡ Ok (record { verdicts = 0; passed = 1 }) }
    ensures other_part { judgement (codes "report 2\nring 2 x\norder grevlex\nideal I = x\nquery 1 resolution 0 I\nanswer ranks 1 1\ndatum I 0\npart 1 given 1 1 (x)\nd 1 2\ndone 1\nend report\n") ≡ Err (record { line = 9; why = Reference }) }
    ensures other_number { judgement (codes "report 2\nring 2 x\norder grevlex\nideal I = x\nquery 1 resolution 0 I\nanswer ranks 1 1\ndatum I 0\npart 1 given 1 1 (x)\nd 2 1\ndone 1\nend report\n") ≡ Err (record { line = 9; why = Form }) }
    ensures other_line { judgement (codes "report 2\nring 2 x\norder grevlex\nideal I = x\nquery 1 resolution 0 I\nanswer ranks 1 1\ndatum I 0\npart 1 given 1 1 (x)\nexact 1 1 1 1\ndone 1\nend report\n") ≡ Err (record { line = 9; why = Form }) }
    ensures no_part { judgement (codes "report 2\nring 2 x\norder grevlex\nideal I = x\nquery 1 resolution 0 I\nanswer ranks 1 1\ndatum I 0\npart 1 given 1 1 (x)\nlog 1 2\ndone 1\nend report\n") ≡ Err (record { line = 9; why = Reference }) }
    ensures few_ranks { judgement (codes "report 2\nring 2 x\norder grevlex\nideal I = x\nquery 1 resolution 0 I\nanswer ranks 1\ndatum I 0\npart 1 given 1 1 (x)\nd 1 1\ndone 1\nend report\n") ≡ Err (record { line = 6; why = Form }) }
    ensures other_answer { judgement (codes "report 2\nring 2 x\norder grevlex\nideal I = x\nquery 1 resolution 0 I\nanswer yes\ndatum I 0\npart 1 given 1 1 (x)\nd 1 1\ndone 1\nend report\n") ≡ Err (record { line = 6; why = Form }) }
    ensures refusal { judgement (codes "report 2\nring 2 x\norder grevlex\nideal I = x\nquery 1 resolution 0 I\nrefused wrong length 1 needed 2\ndatum I 0\npart 1 given 1 1 (x)\nd 1 1\ndone 1\nend report\n") ≡ Err (record { line = 6; why = Form }) }
    ensures exponent { judgement (codes "report 2\nring 2 x\norder grevlex\nideal I = x\nquery 1 resolution 0 I\nanswer ranks 1 1\ndatum I 0\npart 1 given 1 1 (x^16777216)\nd 1 1\ndone 1\nend report\n") ≡ Err (record { line = 8; why = Exponents }) }
    ensures number_and_exponent { judgement (codes "report 2\nring 2 x\norder grevlex\nideal I = x\nquery 1 resolution 0 I\nanswer ranks 1 1\ndatum I 0\npart 2 given 1 1 (x^16777216)\nd 1 1\ndone 1\nend report\n") ≡ Err (record { line = 8; why = Form }) }
    ensures name_and_exponent { judgement (codes "report 2\nring 2 x\norder grevlex\nideal I = x\nquery 1 resolution 0 I\nanswer ranks 1 1\ndatum I 0\npart 1 given 1 1 (x^4294967296*z)\nd 1 1\ndone 1\nend report\n") ≡ Err (record { line = 8; why = Form }) }
    ensures long_column { judgement (codes "report 2\nring 2 x\norder grevlex\nideal I = x\nquery 1 resolution 0 I\nanswer ranks 1 1\ndatum I 0\npart 1 given 2 1 (x)\nd 1 1\ndone 1\nend report\n") ≡ Err (record { line = 8; why = Shape }) }
    ensures few_columns { judgement (codes "report 2\nring 2 x\norder grevlex\nideal I = x\nquery 1 resolution 0 I\nanswer ranks 1 1\ndatum I 0\npart 1 given 1 2 (x)\nd 1 1\ndone 1\nend report\n") ≡ Err (record { line = 8; why = Form }) }
    ensures own_operand { judgement (codes "report 2\nring 2 x\norder grevlex\nideal I = x\nquery 1 resolution 0 I\nanswer ranks 1 1\ndatum I 0\npart 1 flip 1\nd 1 1\ndone 1\nend report\n") ≡ Err (record { line = 8; why = Reference }) }
    ensures other_ideal { judgement (codes "report 2\nring 2 x\norder grevlex\nideal I = x\nquery 1 resolution 0 I\nanswer ranks 1 1\ndatum J 0\npart 1 given 1 1 (x)\nd 1 1\ndone 1\nend report\n") ≡ Err (record { line = 7; why = Reference }) }
    ensures other_degree { judgement (codes "report 2\nring 2 x\norder grevlex\nideal I = x\nquery 1 resolution 0 I\nanswer ranks 1 1\ndatum I 1\npart 1 given 1 1 (x)\nd 1 1\ndone 1\nend report\n") ≡ Err (record { line = 7; why = Value }) }
    ensures nothing_follows { judgement (codes "report 2\nring 2 x\norder grevlex\nideal I = x\nquery 1 resolution 0 I\nunanswered budget resolve 1\ndatum I 0\npart 1 given 1 1 (x)\nd 1 1\ndone 1\nend report\n") ≡ Err (record { line = 7; why = Form }) }
    ensures other_query { judgement (codes "report 2\nring 2 x\norder grevlex\nideal I = x\nquery 2 resolution 0 I\nanswer ranks 1 1\ndatum I 0\npart 1 given 1 1 (x)\nd 1 1\ndone 1\nend report\n") ≡ Err (record { line = 5; why = Form }) }
    ensures old_prime { judgement (codes "report 1\nring 17 x\norder grevlex\nideal I = x\nquery 1 resolution 0 I\nanswer ranks 1 1\ndatum I 0\npart 1 given 1 1 (x)\nd 1 1\ndone 1\nend report\n") ≡ Err (record { line = 2; why = Form }) }
    ensures inverted { judgement (codes "report 2\nring 2 x\norder grevlex\nideal I = x\nquery 1 invert 0 I x\nanswer yes power 1\ndatum I 0\npart 1 given 1 1 (x)\nd 1 2\ndone 1\nend report\n") ≡ Err (record { line = 9; why = Reference }) }
    ensures not_inverted { judgement (codes "report 2\nring 2 x\norder grevlex\nideal I = x\nquery 1 invert 0 I x\nanswer no\ndatum I 0\npart 1 given 1 1 (x)\nd 1 2\ndone 1\nend report\n") ≡ Err (record { line = 9; why = Reference }) }
    ensures supported { judgement (codes "report 2\nring 2 x\norder grevlex\nideal I = x\nquery 1 support 0 I\nanswer ideal x, 0\ndatum I 0\npart 1 given 1 1 (x)\nd 1 2\ndone 1\nend report\n") ≡ Err (record { line = 9; why = Reference }) }
    ensures mapped { judgement (codes "report 2\nring 2 x\norder grevlex\nideal I = x\nquery 1 map 0 I I\nanswer zero no one yes onto yes stage 0\ndatum I 0\npart 1 given 1 1 (x)\nd 1 2\ndone 1\nend report\n") ≡ Err (record { line = 9; why = Reference }) }
    ensures half_an_answer { judgement (codes "report 2\nring 2 x\norder grevlex\nideal I = x\nquery 1 map 0 I I\nanswer zero no one yes\ndone 1\nend report\n") ≡ Err (record { line = 6; why = Form }) }
    ensures no_certificate { judgement (codes "report 2\nring 2 x\norder grevlex\nideal I = x\nquery 1 support 0 I\nanswer ideal x\ndone 1\nend report\n") ≡ Err (record { line = 7; why = Form }) }
    ensures empty { judgement (codes "") ≡ Err (record { line = 1; why = Truncated }) }
    ensures cut { judgement (codes "report 2\nring 2 x\norder grevlex\nideal I = x\nquery 1 resolution 0 I\nanswer ranks 1 1\ndatum I 0\n") ≡ Err (record { line = 8; why = Truncated }) }
{}

/// Lines of certificates for answers on inverting x, each in its place: a part, a log, a member or a column that isn't there, shapes, and numbers that
/// aren't the next; and two that are taken.
pub fn lines_on_inverting_are_judged()
    ensures no_part { step (on_inverting (Some 1) small_row (power small_generator 0 1)) (codes "power 4") ≡ Err Reference }
    ensures few_columns { step (on_inverting (Some 1) small_row (power small_generator 0 1)) (codes "power 3") ≡ Err Shape }
    ensures first_power { step (on_inverting (Some 0) no_rows (power small_generator 0 0)) (codes "power 3") ≡ Ok (record (on_inverting (Some 0) no_rows (power small_generator 0 0)) { stage = at_done }) }
    ensures no_power { step (on_inverting (Some 1) small_row (power small_generator 0 1)) (codes "least 1 1") ≡ Err Form }
    ensures no_column { step (on_inverting (Some 1) small_row (least small_generator 0 0)) (codes "least 1 2") ≡ Err Reference }
    ensures no_log { step (on_inverting (Some 1) small_row (least small_generator 0 0)) (codes "least 2 1") ≡ Err Reference }
    ensures no_member { step (on_inverting (Some 1) small_row (least small_generator 0 0)) (codes "least 1 1 by 1") ≡ Err Reference }
    ensures no_colon_yet { step (on_inverting None small_row (colon small_generator 0 [])) (codes "settles 0 1") ≡ Err Form }
    ensures second_first { step (on_inverting None small_row (colon small_generator 0 [])) (codes "colon 2 1 1 1 1") ≡ Err Form }
    ensures long_colon { step (on_inverting None small_row (colon small_generator 0 [])) (codes "colon 1 2 1 1 1") ≡ Err Shape }
    ensures other_number { step (on_inverting None no_rows (colon small_generator 0 (no_rows ∷ []))) (codes "settles 2 3") ≡ Err Form }
    ensures settled { step (on_inverting None no_rows (colon small_generator 0 (no_rows ∷ []))) (codes "settles 1 3") ≡ Ok (on_inverting None no_rows (proper_colon 0 (no_rows ∷ []))) }
    ensures no_unit_vector { step (on_inverting None no_rows (proper_colon 0 (no_rows ∷ []))) (codes "proper 1 1") ≡ Err Reference }
{}

/// Lines of certificates for answers on the support, each in its place.
pub fn lines_on_the_support_are_judged()
    ensures no_part { step (on_support (annihilator (small_generator ∷ []) 0)) (codes "annihilator 4 1 1 1") ≡ Err Reference }
    ensures no_log { step (on_support (annihilator (small_generator ∷ []) 0)) (codes "annihilator 1 2 1 1") ≡ Err Reference }
    ensures long_column { step (on_support (annihilator (small_generator ∷ []) 0)) (codes "annihilator 2 1 1 1") ≡ Err Shape }
    ensures other_line { step (on_support (annihilator (small_generator ∷ []) 0)) (codes "whole 1") ≡ Err Form }
    ensures done_too_early { step (on_support (annihilator (small_generator ∷ []) 0)) (codes "done 1") ≡ Err Form }
{}

/// Lines of certificates for answers on a map, each in its place: the side of the target begins, and lines that are bad there; and two that are taken.
pub fn lines_on_a_map_are_judged()
    ensures other_side { step (on_source None (datum_beyond 0)) (codes "datum I 1") ≡ Ok (on_target None small_row (new_block 0 1) (differential 0)) }
    ensures other_ideal { step (on_source None (datum_beyond 0)) (codes "datum J 1") ≡ Err Reference }
    ensures other_degree { step (on_source None (datum_beyond 0)) (codes "datum I 2") ≡ Err Value }
    ensures no_second_block { step (on_source None (datum_beyond 0)) (codes "lambda 0 1") ≡ Err Form }
    ensures second_first { step (on_target None small_row (block_with small_row) (lambda 0 [])) (codes "lambda 1 1") ≡ Err Form }
    ensures no_lambda { step (on_target None small_row (block_with small_row) (lambda 0 [])) (codes "lambda 0 4") ≡ Err Reference }
    ensures long_lambda { step (on_target None small_row (block_with small_row) (lambda 0 [])) (codes "lambda 0 2") ≡ Err Shape }
    ensures no_phi { step (on_target None small_row (block_with small_row) (phi 0 (small_row ∷ small_row ∷ []))) (codes "phi 4") ≡ Err Reference }
    ensures long_phi { step (on_target None small_row (block_with small_row) (phi 0 (small_row ∷ small_row ∷ []))) (codes "phi 2") ≡ Err Shape }
    ensures no_multiple { step (on_target None small_row (block_with small_row) (null 0 small_row)) (codes "null 4") ≡ Err Reference }
    ensures other_answer { step (on_target None small_row (block_with small_row) (null 0 small_row)) (codes "nonnull 1 1") ≡ Err Form }
    ensures no_column { step (on_target None small_row (block_with small_row) (nonnull 0 small_row)) (codes "nonnull 1 2") ≡ Err Reference }
    ensures long_fibre { step (on_target None small_row (block_with small_row) (fibre 0 small_row)) (codes "fibre 2 1 1 1") ≡ Err Shape }
    ensures no_member { step (on_target None small_row (block_with small_row) (notone 0 small_row small_row)) (codes "notone 1 1 by 1") ≡ Err Reference }
    ensures long_link { step (on_target (Some 1) small_row (block_with small_row) (link 0 small_row [])) (codes "link 1 2 1 1 1") ≡ Err Shape }
    ensures too_early { step (on_target (Some 1) small_row (block_with small_row) (link 0 small_row [])) (codes "onto 0 1") ≡ Err Form }
    ensures open_end { step (on_target (Some 1) small_row (block_with small_row) (link 0 small_row (no_rows ∷ []))) (codes "closes 0 3") ≡ Err Form }
    ensures no_link_yet { step (on_target None small_row (block_with small_row) (open_link 0 small_row [])) (codes "closes 0 1") ≡ Err Form }
    ensures closed { step (on_target None no_rows (block_with no_rows) (open_link 0 no_rows (no_rows ∷ []))) (codes "closes 0 3") ≡ Ok (on_target None no_rows (block_with no_rows) (never_onto 0 no_rows (no_rows ∷ []))) }
    ensures no_unit_vector { step (on_target None no_rows (block_with no_rows) (never_onto 0 no_rows (no_rows ∷ []))) (codes "short 0 1 1") ≡ Err Reference }
    ensures other_number { step (on_target (Some 1) small_row (block_with small_row) (short 0 small_row (small_row ∷ []))) (codes "short 1 1 1") ≡ Err Form }
    ensures everything { step (on_target (Some 0) no_rows (block_with no_rows) (onto 0 no_rows [])) (codes "onto 0 3") ≡ Ok (record (on_target (Some 0) no_rows (block_with no_rows) (onto 0 no_rows [])) { stage = at_done }) }
    ensures other_stage { step (on_target (Some 0) no_rows (block_with no_rows) (onto 0 no_rows [])) (codes "onto 1 3") ≡ Err Form }
{}
