//! Trials of what queries are answered with: hosts and addresses, values, the shelf, imports, messages, and answers over names of their own and over a chain.
#![tactic(auto)]

#[cfg(test)]
mod chain_answers;
#[cfg(test)]
mod comparing;
#[cfg(test)]
mod hosts;
#[cfg(test)]
mod imports;
#[cfg(test)]
mod messages;
#[cfg(test)]
mod replies;
#[cfg(test)]
mod resolving;
#[cfg(test)]
mod shelf;
#[cfg(test)]
mod values;
