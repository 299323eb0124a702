//! Metrics of a running server: counters, counts of requests, and timed stores.
mod numbers;
mod tallies;
mod times;
