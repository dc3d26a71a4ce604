// The figures of document 01 as theorems of the definitions: the table is in specs/, and no code stands here.

#![tactic(auto)]
