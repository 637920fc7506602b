// What is promised to the customer, about the calls themselves: definitions and proofs alone. There is no code here.
#![tactic(auto)]
