// Section 3 of the paper beside the rules. Nothing runs here: what is said and proved stands in specs/.
#![tactic(auto)]
