// The grammar of Lua 5.4 and the reading of a token stream: definitions (specs/) and theorems (proofs/). There is no code here.

#![tactic(auto)]
