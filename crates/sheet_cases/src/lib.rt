// Tests of sheets: the worked example, retuning, thirty-two pins, every refusal, noise in the memories between draws, lists of calls and two sheets.
#![tactic(auto)]

#[cfg(test)]
mod examples;
#[cfg(test)]
mod histories;
#[cfg(test)]
mod memory;
#[cfg(test)]
mod pins;
#[cfg(test)]
mod refusals;
#[cfg(test)]
mod replies;
#[cfg(test)]
mod retuning;
#[cfg(test)]
mod twins;
