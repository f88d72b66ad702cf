// The grammar of the assembler's texts, its reader, and what a text becomes, with their theorems; no code.
#![tactic(auto)]
