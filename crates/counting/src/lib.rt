// Laws alone, with no function: sums, counts and tests over the numbers 0, 1, .., n - 1. Every layer counts by them.
#![tactic(auto)]
