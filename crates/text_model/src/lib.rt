// Laws of the job text's bytes, lines and numbers, and of the listing. Specs only.
#![tactic(auto)]
