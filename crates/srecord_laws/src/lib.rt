// Laws alone: a line in the form is the spelling of one record, a text is accepted exactly where its records are in order, and a written text is read back.
#![tactic(auto)]
