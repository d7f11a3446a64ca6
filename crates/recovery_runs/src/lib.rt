//! Runs with crashes, recoveries and queries, computed over the definitions: whole reports, byte for byte, as a program that was written
//! from the requirements alone wrote them, and datagrams about queries that no end sends. Each stands in a file of proofs, as an equation
//! that the prover computes.
#![tactic(auto)]
