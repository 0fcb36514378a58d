// Logs on devices in memory: wrapped, torn and spoilt ones, each read and looked through.
#![tactic(auto)]

#[cfg(test)]
mod images;
#[cfg(test)]
mod tests;
