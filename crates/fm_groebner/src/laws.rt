// Laws of Gröbner bases of submodules of free modules over GF(p)[x1..xn].
pub mod bases;
pub mod examples;
pub mod graphs;
pub mod logs;
pub mod shown;
pub mod terms;
