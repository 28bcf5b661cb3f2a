// The calls put to the test. Nothing runs here: what is proved stands in specs/.
#![tactic(auto)]
