//! Worked figures, run as tests. The expected numbers were reckoned by hand or tick by tick from the model, never by this code.
#![tactic(auto)]

#[cfg(test)]
mod checks;
#[cfg(test)]
mod instants;
#[cfg(test)]
mod kinds;
#[cfg(test)]
mod shares;
