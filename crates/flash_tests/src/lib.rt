//! Tests of the store on flash, of its plans and its calls, over a flash in memory, of its lines, and of a part in
//! memory. There is nothing else here: a crate of tests over several libraries has none of them proved a second time.
#![tactic(auto)]

#[cfg(test)]
mod calls;
#[cfg(test)]
mod histories;
#[cfg(test)]
mod lines;
#[cfg(test)]
mod logs;
#[cfg(test)]
mod parts;
#[cfg(test)]
mod plans;
#[cfg(test)]
mod seals;
#[cfg(test)]
mod starts;
