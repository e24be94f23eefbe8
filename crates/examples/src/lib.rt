// Examples of the rules, with values worked out by hand, run against the library.

#![tactic(auto)]

#[cfg(test)]
mod chips;
#[cfg(test)]
mod links;
#[cfg(test)]
mod ports;
#[cfg(test)]
mod sheets;
#[cfg(test)]
mod tests;
