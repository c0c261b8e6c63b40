// What two allocations and a body must be for their call to run: what they placed and both code calls accept is ready, and its code has at most 512 records.
#![tactic(auto)]
