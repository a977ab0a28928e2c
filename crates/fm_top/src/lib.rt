// The top call: words, a source and a sink in, a status out. Everything that the program promises stands on its contract.
#![tactic(auto)]

mod answering;
mod call;
mod certifying;
#[cfg(test)]
mod check_tests;
#[cfg(test)]
mod class_tests;
#[cfg(test)]
mod count_tests;
mod deciding;
#[cfg(test)]
mod ext_tests;
#[cfg(test)]
mod limit_tests;
#[cfg(test)]
mod map_tests;
#[cfg(test)]
mod query_tests;
mod reply;
#[cfg(test)]
mod resolution_tests;
mod running;
mod sampling;
#[cfg(test)]
mod tests;
#[cfg(test)]
mod word_tests;
mod words;
#[cfg(test)]
mod worked_tests;

pub use running::run;
