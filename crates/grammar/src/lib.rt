// The grammar of an assertion's text: definitions and laws only.
#![tactic(auto)]
