// Sound programs by document 01's sentences. Nothing runs here: what is said and proved stands in specs/.
#![tactic(auto)]
