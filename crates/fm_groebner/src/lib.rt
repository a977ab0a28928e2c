// Gröbner bases of submodules of free modules over GF(p)[x1..xn], for any number of variables and exponents: definitions in specs/,
// laws in `laws`. Nothing here computes; the laws are what a program that completes, divides or replays a log has to meet.
//
// Notions (specs/)
//   Terms      a term c * x^a * e_i, position over term; a falling list is the normal form of a vector; twisted terms
//   Bases      head of a vector; IsGroebnerBasis: members inside, and their heads divide every head of the module
//   Logs       ReducesBy: head reductions; IsIrreducible; FreeRun: a log of inputs, pairs and skips in any order; IsComplete
//   Graphs     graph A: A above the unit matrix; IsGraphBasis: a Gröbner basis of it
//   Syzygies   syzygies A members: the lower blocks of the members with zero upper block, in their order; what is shown by them
//
// Laws (src/laws/)
//   terms      a list of terms means a vector; each vector has one falling list; the head is its first term; twists term by term
//   bases      a basis generates; every vector has an irreducible rest; the rest decides membership; Buchberger's criterion both
//              ways; the twist of a basis is a basis of the twisted module
//   logs       a complete log gives a Gröbner basis, in any order of pairs and with skips; a log determines its members
//   graphs     kernel by lower blocks; image and solution by the rest; the first term tells the upper block; twists of graphs
//   shown      the_syzygies_generate_the_kernel; a_kernel_is_shown (A C = 0, syzygies = C W); a_preimage_is_shown ([A | B] (C above
//              X) = 0, first rows of the syzygies = C W); an_outside_is_shown (a head in the upper block that no member divides)
//   examples   a complete log; the product criterion fails for vectors; an unfinished log gives no basis; a reducible rest does
//              not decide membership; the first component is the greater
#![tactic(auto)]

pub mod laws;
