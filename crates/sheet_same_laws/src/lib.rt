// Laws alone: `same` is reflexive on accepted sheets and symmetric, and holds exactly where starts and images are equal.
#![tactic(auto)]
