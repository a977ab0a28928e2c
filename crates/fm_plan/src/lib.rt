// The plans of queries as theory: tasks in their order with one budget, as functions of the units that are there; no program, and so no
// cost.
//
// The notions (specs/):
//   Tasks    Halt: a task with its stop, or a refusal; Plan: tasks with one budget; task: the work of a task, under its name
//   Results  what the tasks compute: Resolution, Ext, Chain, Killed
//   Base     the tasks of one ideal in one degree: a resolution with its lift, Ext with its generating morphism, the chain of kernels
//   Queries  plan: the plan of each of the nine kinds of queries; Found: what it computed; verdict: what its answer says
// The laws (src/laws.rt):
//   base_establishes_the_facts_of_a_degree   a base that ends has the finite facts of its degree, with the first repeat of the chain
//   a_plan_that_ends_answers_rightly         a plan that ends with an answer: its verdict holds in the limit, for all nine kinds
#![tactic(auto)]

pub mod laws;
