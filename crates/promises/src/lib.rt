// Demands 2 and 3 and the refusal table over the calls, for every sheet, list, start set, budget and lent board: specs/. Theory alone; there is no code here.
#![tactic(auto)]
