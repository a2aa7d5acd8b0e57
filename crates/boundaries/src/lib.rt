// Examples at every boundary of values, homes and openings, and a transaction over nodes. There is nothing here but tests.
#![tactic(auto)]

#[cfg(test)]
mod calls;
#[cfg(test)]
mod helpers;
#[cfg(test)]
mod openings;
#[cfg(test)]
mod transactions;
#[cfg(test)]
mod values;
