// Laws of a schedule's bytes: they are read back as the members that they were made of, no other bytes are read as those members, and how many there are.
#![tactic(auto)]
