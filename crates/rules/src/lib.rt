// Document 000's reduction rules, and that the machine over an accepted tape stands where they stand: definitions and theorems, no code.
#![tactic(auto)]
