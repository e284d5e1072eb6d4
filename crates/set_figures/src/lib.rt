//! Worked figures of task sets, run as tests. The expected numbers were reckoned by hand or tick by tick from the model, never by
//! this code.
#![tactic(auto)]

#[cfg(test)]
mod checks;
#[cfg(test)]
mod histories;
#[cfg(test)]
mod sets;
