#![tactic(auto)]

// Lists of calls, computed on the definitions and on the history. No code.
