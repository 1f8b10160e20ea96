//! Tests of what no script of the player can show: threads, rows and tables of handlers, peers of
//! the code itself.
#![tactic(auto)]

#[cfg(test)]
mod cases;
#[cfg(test)]
mod commands;
#[cfg(test)]
mod counts;
#[cfg(test)]
mod desks;
#[cfg(test)]
mod drivers;
#[cfg(test)]
mod feeds;
#[cfg(test)]
mod gates;
#[cfg(test)]
mod links;
#[cfg(test)]
mod peers;
#[cfg(test)]
mod routers;
#[cfg(test)]
mod seats;
#[cfg(test)]
mod slots;
#[cfg(test)]
mod tables;
#[cfg(test)]
mod views;
#[cfg(test)]
mod workers;
