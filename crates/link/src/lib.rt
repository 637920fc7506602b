// What demand 3 says of a sender, a channel and a receiver, and its proof for every packing. There is no code here.
#![tactic(auto)]
