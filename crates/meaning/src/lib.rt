// What the full check and the build mean in the scope paper's words. No code: definitions and theorems.
#![tactic(auto)]
