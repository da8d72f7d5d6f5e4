#![tactic(auto)]
// The examples of document 01.
