// Laws alone, with no function: of what a fill leaves in a list that the caller lends (`Filled`, in `specification`), and of the
// states of the pass over a graph's edges (`Pass` there).
#![tactic(auto)]
