// What a row of the lent table is, and the distance: 01, What the library holds, and 02, R-1 and R-8. Definitions and their laws, and no code.
#![tactic(auto)]
