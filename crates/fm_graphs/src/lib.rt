// The standard run beyond completions, as theory: graphs of matrices, syzygies, lifts, trimmed columns and preimages, each a function of
// the units that are there; no program, and so no cost.
//
// The notions (specs/):
//   Listing  terms_of: the falling list of a vector of polynomials
//   Bounds   multiplied, twisted_matrix: products and twists, which spend nothing and may pass the bound on exponents
//   Graphs   graph_run: a matrix with a completion of its graph; syzygies; lift_run: a division of (v; 0); lifted, inside_run, whole_run:
//            the same for columns; twisted_graph
//   Trims    trimmed: columns without those that the others span; generating, kernel_run, preimage_run: generators of kernels and preimages
// The laws (src/laws.rt):
//   vectors_have_their_falling_lists           a vector and its falling list give each other back
//   completed_graphs_give_kernels_and_images   syzygies generate the kernel; a lift is inside exactly where the vector is in the image
//   twisted_graphs_give_kernels                the twisted members complete the graph of the twist
//   trimmed_columns_span_the_same              what is kept spans all, and none lies in the span of the others
//   preimages_are_generated                    what is found generates all w with A * w in im B
#![tactic(auto)]

pub mod laws;
