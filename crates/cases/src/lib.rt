// The one table of the scope paper's cases, and ours, computed over what the calls say, what an index means and the image. No code.
#![tactic(auto)]
