// Laws of definitions that stand with the code: the encoder's state, what the reader's code hands back,
// numbers pushed and printed, the headers of lists, and names by their lengths.
#![tactic(auto)]
