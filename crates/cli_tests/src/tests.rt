//! `streams` makes the streams of bytes, and `runs` brings them to the top call and compares what
//! comes of them. The tests are of words (`asked`, `words`), of decisions (`decisions`, `idle`), of
//! nodes that run or catch up (`asking`, `boots`), of the other chains (`tallies`, `ledgers`), of drills
//! and audits, of bad inputs and cuts (`inputs`, `cuts`), and of reads, writes and allocations that fail
//! (`faults`, `scarce`).

mod asked;
mod asking;
mod audits;
mod boots;
mod cuts;
mod decisions;
mod drills;
mod faults;
mod idle;
mod inputs;
mod ledgers;
mod runs;
mod scarce;
mod streams;
mod tallies;
mod words;
