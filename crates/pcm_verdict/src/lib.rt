//! What a call of the program does: the verdict on its words and files, and what it prints.
//! It holds definitions and their laws, and no code.
#![tactic(auto)]
