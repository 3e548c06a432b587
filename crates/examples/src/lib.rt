// Worked examples and vectors of the other crates, as tests.
#![tactic(auto)]

#[cfg(test)]
mod asked;
#[cfg(test)]
mod delivers;
#[cfg(test)]
mod hex;
#[cfg(test)]
mod limit_lines;
#[cfg(test)]
mod member_runs;
#[cfg(test)]
mod network_sizes;
#[cfg(test)]
mod opens;
#[cfg(test)]
mod refused;
#[cfg(test)]
mod tally_rows;
#[cfg(test)]
mod value_bytes;
#[cfg(test)]
mod wire_bytes;
