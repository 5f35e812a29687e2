// Demands 2 and 3 over the rules themselves: the tables at rest, the wire lists, the end of a run. Theory alone: specs/. There is no code here.
#![tactic(auto)]
