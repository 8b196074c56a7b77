// Facts alone: a field that is read suits its kind, a line that is read fits the grammar; a sheet's lines and outcomes.
#![tactic(auto)]
