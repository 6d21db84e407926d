// Numbers as digits: definitions and laws alone. The functions that write and read digits stand where they are used.

#![tactic(auto)]
