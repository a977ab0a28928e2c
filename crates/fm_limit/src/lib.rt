// Direct systems of modules over GF(p)[x1 .. xn] with a Frobenius, and their limits, after G. Lyubeznik's F-modules: above all that of
// Ext^i(R/I^[q], R), whose limit is local cohomology. Definitions on which every verdict rests stand in specs/, and the laws that lead
// from finite data to the limit in `laws`. Nothing here computes.
//
// Notions (specs/)
//   System           a direct system by stages: cocycles, coboundaries, the matrix of a move; zero and same in the limit; vanishing,
//                    inverting, annihilators, enough moves, support ideal, root; maps: zero, one to one, onto; presentations
//   SystemInstances  systems by matrices: modules, complexes, complexes modulo relations; LimitOf names them as data
//   ResolvedIdeal    resolution, Frobenius lift, lift of the identity; DirectSystem, Limit, Classes: its degrees as systems
//   GivenModules     a module (N, U) of the user; GivenSystems: four matrices, cocycles a kernel or a preimage
//   Iterated         Kronecker products and iterated local cohomology
//   Facts            what is computed: Ext with its morphism, chains and their repeats, coordinates, colons, annihilator rows
//   Found            what is found of a degree, a limit or a map, as one record each: Z, U, the chain and its repeat
//   Verdicts         the answers, when they hold, and what they rest on
//   SmallIdeals, SmallModules, PairIdeals, PlaneIdeals    data of the worked examples
//
// Laws (src/laws/)
//   systems       facts of any limit give its verdicts; facts of a map give the verdict on it
//   instances     a degree, a module, a kernel system and a preimage system have facts by what is checked at stage 0; iterated local
//                 cohomology is a preimage system
//   verdicts      the same for degrees of resolved ideals: zero, class, inverting, support, root, induced map, plain answers
//   stages        cocycles, coboundaries and moves in words of lists; to be the same in the limit is an equivalence
//   chains        the chain rises and is constant from its first repeat; a finite chain goes on as itself; where a chain may begin;
//                 steps from any stage
//   lifts         the next matrix of a lift exists (theta, lambda, U, Phi); a class has coordinates
//   homotopy      the twist of a resolution is one; lifts are homotopic; moves and maps commute; coboundaries go to coboundaries
//   independence  nothing depends on the resolution, the lift or the lift of the identity; classes and verdicts are carried over
//   roots         a root determines the limit; two support ideals have the same powers
//   examples      degree 0, the zero and the unit ideal, inverting 0 and 1, principal ideals
//   worked        ideals and maps of GF(2)[x, y] by hand: each record of facts and each least number above 0 has an instance
#![tactic(auto)]

pub mod laws;
